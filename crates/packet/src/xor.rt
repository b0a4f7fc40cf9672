// The exclusive-or kind of check.
ghost use Rattle.packet.specs.Checks.{xor_check};
ghost use Rattle.packet.specs.Folds.{xor_marked, xor_tells};
ghost use Rattle.std.proofs.Common.{rules};

use crate::checks::Check;

// One check byte: 80 plus the exclusive or modulo 128.
#[derive(Clone, Copy)]
pub struct Xor;

impl Check for Xor {
    const LEN: usize = 1;

    ghost LEN = { 1 };

    ghost meaning = { xor_check };

    ghost least_size = { Prim.search rules };

    ghost greatest_size = { Prim.search rules };

    ghost sized = { Prim.search rules };

    ghost marked = { xor_marked };

    ghost tells = { xor_tells };

    fn check(covered: &[u8]) -> [u8; 5] {
        // Each kind has a loop of its own over the covered bytes: a rule of the project.
        let mut all = 0u8;
        for b in covered {
            all ^= *b;
        }
        [0x80 + all % 0x80, 0, 0, 0, 0]
    }
}
