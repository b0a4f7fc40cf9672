// What becomes of a message that was accepted.
ghost use Rattle.std.specs.Prelude.{◌≡◌, Some};
ghost use Rattle.primary.specs.Outcomes.{outcome_number, tally_text};

use std::fmt;

#[derive(Clone, Copy, Debug, PartialEq, Eq)]
pub enum Outcome {
    Arrived = 1,
    GivenUp = 2,
    NoConnection = 3,
}

impl From<Outcome> for u8 {
    ghost from_gives = { λ outcome number. number ≡ outcome_number outcome };

    fn from(outcome: Outcome) -> u8 {
        outcome as u8
    }
}

// How many messages got each outcome.
#[derive(Clone, Copy, Debug, Default, PartialEq, Eq)]
pub struct Tally {
    pub arrived: u8,
    pub given_up: u8,
    pub no_connection: u8,
}

// As `1,0,2`, in the order of the fields.
impl fmt::Display for Tally {
    ghost output = { λ tally. Some (tally_text tally) };

    fn fmt<W: fmt::Write>(&self, f: &mut fmt::Formatter<W>) -> fmt::Result {
        write!(
            f,
            "{},{},{}",
            self.arrived, self.given_up, self.no_connection
        )
    }
}
