// The number of a message, 0 or 1: its DATA bears it and its ACK repeats it.
ghost use Rattle.std.specs.Prelude.{◌≡◌, not, Some, decimal};
ghost use Rattle.packet.specs.Numbers.{is_one, digit_of};

use std::fmt;

#[derive(Clone, Copy, Debug, PartialEq, Eq)]
pub enum Number {
    Zero,
    One,
}

impl Number {
    pub fn other(self) -> Number
        ensures { is_one result ≡ not (is_one self) }
    {
        match self {
            Number::Zero => Number::One,
            Number::One => Number::Zero,
        }
    }
}

impl From<Number> for u8 {
    ghost from_gives = { λ number byte. byte ≡ digit_of number };

    fn from(number: Number) -> u8 {
        match number {
            Number::Zero => 0,
            Number::One => 1,
        }
    }
}

impl fmt::Display for Number {
    ghost output = { λ number. Some (decimal (digit_of number)) };

    fn fmt<W: fmt::Write>(&self, f: &mut fmt::Formatter<W>) -> fmt::Result {
        write!(f, "{}", u8::from(*self))
    }
}
