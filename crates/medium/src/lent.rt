// A medium that is lent is a medium. The reference stays the same, so its lender learns what was done through it.
ghost use Rattle.std.specs.Prelude.{◌≡◌};

use crate::class::Class;
use crate::offer::Offer;
use crate::{LONGEST, Medium};

impl<M: Medium> Medium for &mut M {
    ghost bursts = { λ m. M.Medium.bursts m.now };

    ghost offers = { λ m b r n. M.Medium.offers m.now b r n.now × (n.ghost_name ≡ m.ghost_name) };

    ghost takes = { λ m n. M.Medium.takes m.now n.now × (n.ghost_name ≡ m.ghost_name) };

    ghost all_carried = { λ m. M.Medium.all_carried m.now };

    fn offer(&mut self, burst: &[u8]) -> Offer {
        (**self).offer(burst)
    }

    fn count(&self) -> usize {
        (**self).count()
    }

    fn holds(&self, class: Class) -> bool {
        (**self).holds(class)
    }

    fn take(&mut self, place: &mut [u8; LONGEST]) -> usize {
        (**self).take(place)
    }
}
