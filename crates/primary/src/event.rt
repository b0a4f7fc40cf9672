// What a primary station hears and what it then does.
ghost use Rattle.std.specs.Prelude.{◌≡◌, Some};
ghost use Rattle.primary.specs.Events.{asks_again, carries};
ghost use Rattle.primary.specs.Names.{timer_text};

use crate::outcome::Tally;
use packet::number::Number;
use std::fmt;

// A message to send, an answer heard (ACK with its number and credit), or no answer in time.
#[derive(Clone, Copy, Debug, PartialEq, Eq)]
pub enum Event<'a> {
    Submission(&'a [u8]),
    Reset,
    Ack(Number, u8),
    Timeout,
}

// The command that a timer waits for an answer to.
#[derive(Clone, Copy, Debug, PartialEq, Eq)]
pub enum Timer {
    Enq,
    Data,
}

impl fmt::Display for Timer {
    ghost output = { λ timer. Some (timer_text timer) };

    fn fmt<W: fmt::Write>(&self, f: &mut fmt::Formatter<W>) -> fmt::Result {
        f.write_str(match self {
            Timer::Enq => "enq",
            Timer::Data => "data",
        })
    }
}

// A command sent; DATA carries the station's current message. No Option of a number: ENQ is a command too.
#[derive(Clone, Copy, Debug, PartialEq, Eq)]
pub enum Command {
    Enq,
    Data(Number),
}

// The command sent, the timer set with it, and how many messages got each outcome.
#[derive(Clone, Copy, Debug, Default, PartialEq, Eq)]
pub struct Step {
    pub sent: Option<Command>,
    pub timer: Option<Timer>,
    pub tally: Tally,
}

impl Step {
    // ENQ with its timer. Opening a station sends this too.
    pub fn enq() -> Step
        ensures { result ≡ asks_again }
    {
        Step {
            sent: Some(Command::Enq),
            timer: Some(Timer::Enq),
            ..Step::default()
        }
    }

    // DATA with its timer.
    pub(crate) fn data(number: Number) -> Step
        ensures { result ≡ carries number }
    {
        Step {
            sent: Some(Command::Data(number)),
            timer: Some(Timer::Data),
            ..Step::default()
        }
    }
}
