// A layer over any medium that hands it every other offer, the first one on, and loses those between.
ghost use Rattle.std.specs.Prelude.{◌≡◌, false};
ghost use Rattle.stranger_media.specs.Alternating.{Alternates};

use medium::class::Class;
use medium::offer::Offer;
use medium::{LONGEST, Medium};

#[derive(Drop)]
pub struct AlternatingMedium<M: Medium> {
    pub medium: M,
    loses: bool,
}

impl<M: Medium> AlternatingMedium<M> {
    // An alternating layer; what is under way in the medium stays so, and the next offer reaches it.
    pub fn over(medium: M) -> Self
        ensures medium { result.medium ≡ medium }
        ensures turn { result.loses ≡ false }
    {
        AlternatingMedium {
            medium,
            loses: false,
        }
    }
}

impl<M: Medium> Medium for AlternatingMedium<M> {
    ghost bursts = { λ m. M.Medium.bursts m.medium };

    ghost offers = { λ m b r n. Alternates M.Medium.offers m.medium m.loses b r n.medium n.loses };

    ghost takes = { λ m n. M.Medium.takes m.medium n.medium × (n.loses ≡ m.loses) };

    ghost all_carried = { λ m. M.Medium.all_carried m.medium };

    fn offer(&mut self, burst: &[u8]) -> Offer {
        let lost = self.loses;
        self.loses = !lost;
        if lost {
            return Offer::Spoilt;
        }
        self.medium.offer(burst)
    }

    fn count(&self) -> usize {
        self.medium.count()
    }

    fn holds(&self, class: Class) -> bool {
        self.medium.holds(class)
    }

    fn take(&mut self, place: &mut [u8; LONGEST]) -> usize {
        self.medium.take(place)
    }
}
