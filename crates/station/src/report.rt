// What a call on an end tells.
ghost use Rattle.std.specs.Prelude.{◌≤◌};

use packet::letter::Letter;
use packet::number::Number;
use primary::event::Timer;
use primary::outcome::Tally;

// A packet that was sent: its letter, and its length in the caller's place.
#[derive(Clone, Copy, Debug, PartialEq, Eq)]
pub struct Sent {
    pub letter: Letter,
    pub length: usize,
    ghost short: { length ≤ 104 },
}

// The packet sent, the timer started with its period, and how many messages got each outcome.
#[derive(Clone, Copy, Debug, Default, PartialEq, Eq)]
pub struct Report {
    pub sent: Option<Sent>,
    pub timer: Option<(Timer, u16)>,
    pub tally: Tally,
}

// The number of the last ACK (none while the last answer is RESET), how many deliveries are held, the one that is out
// counted, and the number of the buffer that is out.
#[derive(Clone, Copy, Debug, PartialEq, Eq)]
pub struct Holding {
    pub last_answer: Option<Number>,
    pub held: u8,
    pub buffer_out: Option<u8>,
}
