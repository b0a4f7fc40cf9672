// The receive buffers, as data.
ghost use Rattle.std.specs.Prelude.{◌<◌, ◌≤◌};

use buffer::Buffer;

// Eight buffers in turn: `held` deliveries from `oldest` on.
// A table inside the station (a rule of the project), not `ring::slots`: a slip bears its buffer's place, which a `Span`
// does not tell.
#[derive(Clone, Copy)]
pub struct Deliveries {
    buffers: [Buffer<96>; 8],
    oldest: usize,
    held: usize,
    ghost place: { oldest < 8 },
    ghost room: { held ≤ 8 },
}

mod table;
