// The ends of both names, and the slip that is kept for each, as data.
ghost use Rattle.std.specs.Prelude.{◌≡◌, true};
ghost use Rattle.end_bench.specs.Fair.{fairly_kept};

use crate::named::OpenEnd;
use secondary::station::DeliverySlip;

// A slip that is kept is that of a delivery that is out: at the name's end, or at the other where that one's slip was given
// to the first. The four stand side by side, since a call is lent one end and one slip, not always of the same name.
pub struct Ends {
    a: Option<OpenEnd>,
    b: Option<OpenEnd>,
    a_slip: Option<DeliverySlip>,
    b_slip: Option<DeliverySlip>,
    ghost fair: { fairly_kept a_slip b_slip a b ≡ true },
}

pub mod closing;
pub mod running;
