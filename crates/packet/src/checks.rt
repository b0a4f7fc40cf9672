// What a check kind is.
ghost use Rattle.std.specs.Prelude.{◌≡◌, ℕ, ◌≤◌, List, length, ◌≢◌};
ghost use Rattle.packet.specs.Checks.{Each, Altered, padded};

// A rule that gives each string of covered bytes its check bytes.
pub trait Check {
    // The number of check bytes.
    const LEN: usize;

    ghost LEN: { ℕ };

    // The check bytes of each string of covered bytes.
    ghost meaning: { List ℕ → List ℕ };

    // The check bytes of `covered` come first in the answer, then zeros. Five always: no array has an associated constant for
    // its length, and a buffer would bear a second length beside LEN.
    fn check(covered: &[u8]) -> [u8; 5]
        ensures { result ≡ padded LEN (meaning covered.now) };

    ghost least_size: { 1 ≤ LEN };

    ghost greatest_size: { LEN ≤ 5 };

    ghost sized: { (xs : List ℕ) → length (meaning xs) ≡ LEN };

    ghost marked: { (xs : List ℕ) → Each 0x80 0xff (meaning xs) };

    ghost tells: { (xs ys : List ℕ) → Each 0 0x7f xs → Each 0 0x7f ys → Altered xs ys → meaning xs ≢ meaning ys };
}
