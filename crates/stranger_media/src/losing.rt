// A medium that loses everything.
ghost use Rattle.std.specs.Prelude.{◌≡◌, []};
ghost use Rattle.medium.specs.declared.offer.Offer.TheVariants.{Spoilt};

use medium::class::Class;
use medium::offer::Offer;
use medium::{LONGEST, Medium};

// Nothing is ever under way, so it needs no memory.
#[derive(Clone, Copy)]
pub struct LosingMedium;

impl Medium for LosingMedium {
    ghost bursts = { λ m. [] };

    ghost offers = { λ m b r n. (r ≡ Spoilt) × (n ≡ m) };

    ghost takes = { λ m n. n ≡ m };

    ghost all_carried = { λ m. tt };

    fn offer(&mut self, _: &[u8]) -> Offer {
        Offer::Spoilt
    }

    fn count(&self) -> usize {
        0
    }

    fn holds(&self, _: Class) -> bool {
        false
    }

    fn take(&mut self, _: &mut [u8; LONGEST]) -> usize {
        0
    }
}
