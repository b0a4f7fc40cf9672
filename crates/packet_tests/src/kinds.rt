// Two check kinds of a user's own, from those that the packet crate has.
ghost use Rattle.packet_tests.specs.Kinds.{pair_check, five_check};
ghost use Rattle.packet.specs.Checks.{sum_check, xor_check};
ghost use Rattle.packet.specs.Folds.{xor_marked, sum_tells};
ghost use Rattle.packet.specs.Ranges.{each_append};
ghost use Rattle.packet_tests.specs.Marks.{sum_marked, five_marked};
ghost use Rattle.std.proofs.Common.{ap, rules};
ghost use Rattle.std.specs.Prelude.{take};

use packet::checks::Check;
use packet::sum::Sum;
use packet::xor::Xor;

// Two check bytes: that of the sum and that of the exclusive or.
pub struct Pair;

impl Check for Pair {
    const LEN: usize = 2;

    ghost LEN = { 2 };

    ghost meaning = { pair_check };

    ghost least_size = { Prim.search rules };

    ghost greatest_size = { Prim.search rules };

    ghost sized = { Prim.search rules };

    ghost marked = { λ xs. each_append 0x80 0xff (sum_check xs) (xor_check xs) (sum_marked xs) (xor_marked xs) };

    ghost tells = { λ xs ys h g a e. sum_tells xs ys h g a (ap (take 1) e) };

    fn check(covered: &[u8]) -> [u8; 5] {
        let [sum, ..] = Sum::check(covered);
        let [xor, ..] = Xor::check(covered);
        [sum, xor, 0, 0, 0]
    }
}

// Five check bytes: the pair, the pair turned round, and the sum again.
pub struct Five;

impl Check for Five {
    const LEN: usize = 5;

    ghost LEN = { 5 };

    ghost meaning = { five_check };

    ghost least_size = { Prim.search rules };

    ghost greatest_size = { Prim.search rules };

    ghost sized = { Prim.search rules };

    ghost marked = { five_marked };

    ghost tells = { λ xs ys h g a e. sum_tells xs ys h g a (ap (take 1) e) };

    fn check(covered: &[u8]) -> [u8; 5] {
        let [sum, ..] = Sum::check(covered);
        let [xor, ..] = Xor::check(covered);
        [sum, xor, xor, sum, sum]
    }
}
