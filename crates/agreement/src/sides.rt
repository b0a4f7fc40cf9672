//! The two sides of a line.
ghost use Rattle.std.specs.Prelude.{◌≡◌};
ghost use Rattle.packet.specs.Refusals.{answer};
ghost use Rattle.agreement.specs.Line.{side_answer, side_number};

use packet::refusal::Refusal;

/// West is side 0, east is side 1.
#[derive(Clone, Copy, Debug, PartialEq, Eq)]
pub enum Side {
    West,
    East,
}

impl Side {
    /// The side's number, which is its end's line number.
    pub fn number(self) -> u8
        ensures { result ≡ side_number self }
    {
        match self {
            Side::West => 0,
            Side::East => 1,
        }
    }
}

impl TryFrom<u8> for Side {
    type Error = Refusal;

    ghost try_from_gives = { λ number side. answer (λ s. s) side ≡ side_answer number };

    fn try_from(number: u8) -> Result<Side, Refusal> {
        match number {
            0 => Ok(Side::West),
            1 => Ok(Side::East),
            _ => Err(Refusal::UnknownSide),
        }
    }
}
