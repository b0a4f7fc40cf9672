// The secondary station, and the slip that a delivery comes with.
ghost use Rattle.std.specs.Prelude.{◌≤◌};
ghost use Rattle.secondary.specs.Held.{count_out};

use crate::deliveries::Deliveries;
use packet::number::Number;

// Stands for the delivery that is out. Made by taking it, neither copied nor let go, spent by giving it back.
pub struct DeliverySlip {
    line: u8,
    buffer: u8,
}

// `last` is the number of the last ACK, none while the last answer is RESET. `out` says that the oldest
// delivery is out: an Option of its number would say a second time which is the oldest.
// No `impl Model`: `≡` would then compare models, and a refused call leaves the whole station as it was.
#[derive(Drop)]
pub struct Secondary {
    line: u8,
    last: Option<Number>,
    deliveries: Deliveries,
    out: bool,
    ghost one_held: { count_out out ≤ deliveries.held },
}

pub mod commands;
pub mod lending;
pub mod questions;
pub mod slip;
