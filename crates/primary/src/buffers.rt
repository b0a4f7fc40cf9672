// The send buffers, as data.
ghost use Rattle.std.specs.Prelude.{◌<◌, ◌≤◌};

use crate::outcome::Outcome;
use buffer::Buffer;

pub mod ring;

// A message, and what became of it once that is known; no Option, as the table's counts say already where it is known.
#[derive(Clone, Copy)]
pub struct SendBuffer {
    message: Buffer<96>,
    outcome: Outcome,
}

// Eight buffers in a ring: from `head` on `done` whose outcome is not collected, then up to `used` those without outcome.
// A table inside the station (a rule of the project), not `ring::slots`, which writes no outcome into a record in the middle.
#[derive(Clone, Copy)]
pub struct SendBuffers {
    buffers: [SendBuffer; 8],
    head: usize,
    done: usize,
    used: usize,
    ghost place: { head < 8 },
    ghost order: { done ≤ used },
    ghost room: { used ≤ 8 },
}
