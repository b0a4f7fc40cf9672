// The operation letters of a packet.
ghost use Rattle.std.specs.Prelude.{◌≡◌, ◌∷◌, [], if◌then◌else◌, Some};
ghost use Rattle.packet.specs.Bytes.{byte_of};
ghost use Rattle.packet.specs.Format.{field_rules};
ghost use Rattle.packet.specs.Letters.{known, fits, allowed, each_between};
ghost use Rattle.packet.specs.Refusals.{answer, refused, gave, judged};

use crate::number::Number;
use crate::refusal::Refusal;
use std::fmt;

#[derive(Clone, Copy, Debug, PartialEq, Eq)]
pub enum Letter {
    Enq,
    Data(Number),
    Ack(Number),
    Reset,
}

impl TryFrom<u8> for Letter {
    type Error = Refusal;

    ghost try_from_gives = { λ byte letter. answer byte_of letter ≡ (if known byte then gave byte else refused 3) };

    fn try_from(byte: u8) -> Result<Letter, Refusal> {
        match byte as char {
            'E' => Ok(Letter::Enq),
            '0' => Ok(Letter::Data(Number::Zero)),
            '1' => Ok(Letter::Data(Number::One)),
            'A' => Ok(Letter::Ack(Number::Zero)),
            'B' => Ok(Letter::Ack(Number::One)),
            'R' => Ok(Letter::Reset),
            _ => Err(Refusal::UnknownLetter),
        }
    }
}

impl From<Letter> for u8 {
    ghost from_gives = { λ letter byte. byte ≡ byte_of letter };

    fn from(letter: Letter) -> u8 {
        match letter {
            Letter::Enq => b'E',
            Letter::Data(number) => b'0' + u8::from(number),
            Letter::Ack(number) => b'A' + u8::from(number),
            Letter::Reset => b'R',
        }
    }
}

impl fmt::Display for Letter {
    ghost output = { λ letter. Some (byte_of letter ∷ []) };

    fn fmt<W: fmt::Write>(&self, f: &mut fmt::Formatter<W>) -> fmt::Result {
        f.write_char(u8::from(*self) as char)
    }
}

impl Letter {
    // Whether a field of `n` bytes has the letter's length.
    fn length_fits(self, n: usize) -> bool
        ensures { result ≡ fits (byte_of self) n }
    {
        match self {
            Letter::Enq | Letter::Reset => n == 0,
            Letter::Ack(_) => n == 1,
            Letter::Data(_) => (1..=96).contains(&n),
        }
    }

    // Whether each byte of the field lies in the letter's range.
    fn bytes_fit(self, field: &[u8]) -> bool
        ensures { result ≡ allowed (byte_of self) field.now }
    {
        match self {
            Letter::Data(_) => all_between(0x20, 0x7e, field),
            _ => all_between(0x30, 0x38, field),
        }
    }

    // Refuses a field that does not go with the letter.
    pub fn accept(self, field: &[u8]) -> Result<(), Refusal>
        ensures { answer (λ u. u) result ≡ judged (field_rules (byte_of self) field.now) tt }
    {
        if !self.length_fits(field.len()) {
            return Err(Refusal::FieldLength);
        }
        if !self.bytes_fit(field) {
            return Err(Refusal::FieldByte);
        }
        Ok(())
    }
}

// Whether each byte lies from `low` to `high`. Not `all`: without an exit the loop vectorises, about eight times as fast in a
// trial.
pub fn all_between(low: u8, high: u8, bytes: &[u8]) -> bool
    ensures { result ≡ each_between low high bytes.now }
{
    let mut bad = false;
    for b in bytes {
        bad |= (*b < low) | (*b > high);
    }
    !bad
}
