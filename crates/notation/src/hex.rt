// Bytes in hexadecimal.
ghost use Rattle.std.specs.Prelude.{◌≡◌, ◌<◌, [], ◌∷◌, IfOk, Some};
ghost use Rattle.std.specs.List.{list_all};
ghost use Rattle.notation.specs.Hex.{digit, is_digit, byte, are_pairs, decoded, pattern, figure, pairs, hex, unhex};

use std::alloc::{AllocError, Global};
use std::fmt;

// The value of a hexadecimal digit of either case.
fn digit(c: u8) -> Option<u8>
    ensures { result ≡ digit c }
{
    match c {
        b'0'..=b'9' => Some(c - b'0'),
        b'A'..=b'F' => Some(c - b'A' + 10),
        b'a'..=b'f' => Some(c - b'a' + 10),
        _ => None,
    }
}

// The byte that two digits stand for; another byte counts 0, as in the definition: callers asked `are_pairs` before.
#[tactic(auto, using(crate::proofs::Pairs::digit_small))]
pub fn byte(high: u8, low: u8) -> u8
    ensures { result ≡ byte high low }
{
    digit(high).unwrap_or(0) * 16 + digit(low).unwrap_or(0)
}

fn are_digits(word: &[u8]) -> bool
    ensures { result ≡ list_all is_digit word.now }
{
    word.iter().all(|c| digit(*c).is_some())
}

// Whether a word is one or more pairs of hexadecimal digits.
pub fn are_pairs(word: &[u8]) -> bool
    ensures { result ≡ are_pairs word.now }
{
    are_digits(word) && !word.is_empty() && word.len() % 2 == 0
}

// The bytes that pairs of digits stand for. By a slice pattern: chunks with a collect that can fail would be no plainer.
#[tactic(auto, using(crate::proofs::Pairs::decoded_more))]
pub fn decode(heap: Global, pairs: &[u8]) -> Result<Vec<u8>, AllocError>
    ensures { IfOk result (λ v. v.items ≡ decoded pairs.now) }
{
    let mut bytes = Vec::new(heap);
    let mut rest = pairs;
    while let [high, low, after @ ..] = rest {
        bytes.push(byte(*high, *low))?;
        rest = after;
    }
    Ok(bytes)
}

// A pattern of 32 bits: one to eight digits.
#[tactic(auto, using(crate::proofs::Patterns::power_more, crate::proofs::Patterns::value_more, crate::proofs::Patterns::no_digit, crate::proofs::Patterns::is_pattern, crate::proofs::Pairs::digit_small))]
pub fn pattern(word: &[u8]) -> Option<u32>
    ensures { result ≡ pattern word.now }
{
    if word.is_empty() || word.len() > 8 {
        return None;
    }
    // A `for`, not a fold: that the bits fit is known along the loop alone.
    let mut bits = 0u32;
    for c in word {
        bits = bits * 16 + u32::from(digit(*c)?);
    }
    Some(bits)
}

// The upper-case digit of a value below 16.
fn figure(n: u8) -> u8
    requires { n < 16 }
    ensures { result ≡ figure n }
{
    match n {
        0..=9 => b'0' + n,
        _ => b'A' + (n - 10),
    }
}

// The digits of four bytes.
fn figures(a: u8, b: u8, c: u8, d: u8) -> [u8; 8]
    ensures { result ≡ pairs (a ∷ b ∷ c ∷ d ∷ []) }
{
    [
        figure(a / 16),
        figure(a % 16),
        figure(b / 16),
        figure(b % 16),
        figure(c / 16),
        figure(c % 16),
        figure(d / 16),
        figure(d % 16),
    ]
}

// Bytes to be printed as pairs of upper-case digits, and as `-` where there are none.
#[derive(Clone, Copy)]
pub struct Hex<'a> {
    bytes: &'a [u8],
}

impl<'a> Hex<'a> {
    // What is printed, read as a word, stands for the same bytes.
    #[tactic(auto, using(crate::proofs::Pairs::hex_read))]
    pub fn of(bytes: &'a [u8]) -> Self
        ensures value { result.bytes.now ≡ bytes.now }
        ensures back { unhex (hex result.bytes.now) ≡ Some bytes.now }
    {
        Hex { bytes }
    }
}

impl fmt::Display for Hex<'_> {
    ghost output = { λ h. Some (hex h.bytes.now) };

    fn fmt<W: fmt::Write>(&self, f: &mut fmt::Formatter<W>) -> fmt::Result {
        if self.bytes.is_empty() {
            return f.write_str("-");
        }
        // Each write has a cost of its own, so four bytes go in one; at most three are left.
        let mut rest = self.bytes;
        while let [a, b, c, d, after @ ..] = rest {
            f.write_str(str::from_utf8(&figures(*a, *b, *c, *d)).unwrap())?;
            rest = after;
        }
        for &b in rest {
            write!(f, "{b:02X}")?;
        }
        Ok(())
    }
}
