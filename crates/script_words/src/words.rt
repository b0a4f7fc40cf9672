// What a word of a line stands for.
ghost use Rattle.std.specs.Prelude.{◌≡◌};
ghost use Rattle.std.specs.Option.{ok_or};
ghost use Rattle.std.specs.Str.{bytes_eq};
ghost use Rattle.script_words.specs.Arguments.{kind};
ghost use Rattle.script_words.specs.declared.fault.Fault.TheVariants as fault;

use crate::fault::Fault;

#[derive(Clone, Copy, Debug, PartialEq, Eq)]
pub enum Kind {
    Sum,
    Xor,
}

impl<'a> TryFrom<&'a [u8]> for Kind {
    type Error = Fault;

    ghost try_from_gives = { λ w r. r ≡ ok_or (kind w.now) fault.Kind };

    fn try_from(word: &'a [u8]) -> Result<Self, Fault> {
        match word {
            b"sum" => Ok(Kind::Sum),
            b"xor" => Ok(Kind::Xor),
            _ => Err(Fault::Kind),
        }
    }
}

// Bytes as a line writes them: pairs of hexadecimal digits, or the bytes themselves.
// No PartialEq: the same bytes may be written in either way.
#[derive(Clone, Copy)]
pub enum Bytes<'a> {
    Pairs(&'a [u8]),
    Text(&'a [u8]),
}

pub fn is(word: &[u8], text: &str) -> bool
    ensures { result ≡ bytes_eq word.now text.now }
{
    word == text.as_bytes()
}
