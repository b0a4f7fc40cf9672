// The sum kind of check.
ghost use Rattle.packet.specs.Checks.{sum_check};
ghost use Rattle.packet.specs.Folds.{sum_tells};
ghost use Rattle.std.proofs.Common.{rules};

use crate::checks::Check;

// One check byte: 80 plus the sum modulo 128.
#[derive(Clone, Copy)]
pub struct Sum;

impl Check for Sum {
    const LEN: usize = 1;

    ghost LEN = { 1 };

    ghost meaning = { sum_check };

    ghost least_size = { Prim.search rules };

    ghost greatest_size = { Prim.search rules };

    ghost sized = { Prim.search rules };

    ghost marked = { Prim.search rules };

    ghost tells = { sum_tells };

    fn check(covered: &[u8]) -> [u8; 5] {
        // Each kind has a loop of its own over the covered bytes: a rule of the project.
        let mut sum = 0u8;
        for b in covered {
            sum = sum.wrapping_add(*b);
        }
        [0x80 + sum % 0x80, 0, 0, 0, 0]
    }
}
