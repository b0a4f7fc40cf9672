// A layer over any medium that loses the bursts that its pattern hits.
ghost use Rattle.std.specs.Prelude.{◌≡◌};
ghost use Rattle.noise.specs.Lossy.{Passes};

use crate::pattern::Pattern;
use medium::class::Class;
use medium::offer::Offer;
use medium::record::is_carried;
use medium::{LONGEST, Medium};

#[derive(Drop)]
pub struct LossyMedium<M: Medium> {
    pub medium: M,
    pattern: Pattern,
}

impl<M: Medium> LossyMedium<M> {
    // A lossy layer; what is under way in the medium stays so.
    pub fn over(medium: M, pattern: u32) -> Self
        ensures medium { result.medium ≡ medium }
        ensures pattern { result.pattern.bits ≡ pattern }
    {
        LossyMedium {
            medium,
            pattern: Pattern::from(pattern),
        }
    }

    // Starts its losses anew; the medium stays as it is.
    pub fn restart(&mut self, pattern: u32)
        ensures medium { self.new.medium ≡ self.old.medium }
        ensures pattern { self.new.pattern.bits ≡ pattern }
    {
        self.pattern = Pattern::from(pattern);
    }
}

impl<M: Medium> Medium for LossyMedium<M> {
    ghost bursts = { λ m. M.Medium.bursts m.medium };

    ghost offers = { λ m b r n. Passes M.Medium.offers m.medium m.pattern.bits b r n.medium n.pattern.bits };

    ghost takes = { λ m n. M.Medium.takes m.medium n.medium × (n.pattern ≡ m.pattern) };

    ghost all_carried = { λ m. M.Medium.all_carried m.medium };

    fn offer(&mut self, burst: &[u8]) -> Offer {
        if !is_carried(burst) || self.pattern.turn() {
            return Offer::Spoilt;
        }
        self.medium.offer(burst)
    }

    fn count(&self) -> usize {
        self.medium.count()
    }

    fn holds(&self, class: Class) -> bool {
        self.medium.holds(class)
    }

    fn take(&mut self, place: &mut [u8; LONGEST]) -> usize {
        self.medium.take(place)
    }
}
