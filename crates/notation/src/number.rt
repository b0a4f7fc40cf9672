// Numbers of a script.
ghost use Rattle.std.specs.Prelude.{◌≡◌, ◌-◌, ◌^◌, min};
ghost use Rattle.std.specs.Option.{option_map};
ghost use Rattle.notation.specs.Numbers.{decimal, size, size_up_to};

// One or more decimal digits; a number too large for `usize` is told as its largest one.
// Not one function with `pattern`: one has no end of digits and one at most eight, and the digits differ.
#[tactic(auto, using(crate::proofs::Sizes::number_more, crate::proofs::Sizes::no_digit, crate::proofs::Sizes::digits_tell))]
fn decimal(word: &[u8]) -> Option<usize>
    ensures { result ≡ option_map (λ n. min n (2 ^ 64 - 1)) (decimal word.now) }
{
    let mut n = 0usize;
    for c in word {
        if !c.is_ascii_digit() {
            return None;
        }
        n = n.saturating_mul(10).saturating_add(usize::from(*c - b'0'));
    }
    (!word.is_empty()).then_some(n)
}

// The same, of a number from 0 to `largest`.
pub fn size(word: &[u8], largest: u32) -> Option<usize>
    ensures { result ≡ size largest word.now }
{
    let n = decimal(word)?;
    (n <= largest as usize).then_some(n)
}

// The same, of a number from 0 to 255.
pub fn byte_number(word: &[u8]) -> Option<u8>
    ensures { result ≡ size 255 word.now }
{
    u8::try_from(size(word, 255)?).ok()
}

// The number of one or more decimal digits, or `most` where it is larger.
pub fn size_up_to(word: &[u8], most: u32) -> Option<usize>
    ensures { result ≡ size_up_to most word.now }
{
    Some(decimal(word)?.min(most as usize))
}
