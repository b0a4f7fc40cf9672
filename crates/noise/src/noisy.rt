// A queue that alters a byte of the bursts that its pattern hits.
ghost use Rattle.std.specs.Prelude.{◌≡◌, []};
ghost use Rattle.medium.specs.AllCarried.{all_carried};
ghost use Rattle.medium.specs.Queue.{queued, Over, Anew};
ghost use Rattle.noise.specs.Noisy.{Sends, Keeps};

use crate::pattern::Pattern;
use buffer::Buffer;
use medium::burst::Burst;
use medium::class::Class;
use medium::offer::Offer;
use medium::queue::QueueMedium;
use medium::record::is_carried;
use medium::{LONGEST, Medium};

#[derive(Drop)]
pub struct NoisyMedium<'a> {
    queue: QueueMedium<'a>,
    pattern: Pattern,
    offers: u32,
}

impl<'a> NoisyMedium<'a> {
    // A noisy medium with nothing under way, offered nothing yet.
    pub fn over(slots: &'a mut [Burst], pattern: u32) -> Self
        ensures bursts { queued result.queue ≡ [] }
        ensures ring { Over slots.old result.queue }
        ensures pattern { result.pattern.bits ≡ pattern }
        ensures offers { result.offers ≡ 0 }
    {
        NoisyMedium {
            queue: QueueMedium::over(slots),
            pattern: Pattern::from(pattern),
            offers: 0,
        }
    }

    // Starts anew with nothing under way and offered nothing yet, in up to `limit` places.
    pub fn restart(&mut self, limit: usize, pattern: u32)
        ensures bursts { queued self.new.queue ≡ [] }
        ensures ring { Anew self.old.queue limit self.new.queue }
        ensures pattern { self.new.pattern.bits ≡ pattern }
        ensures offers { self.new.offers ≡ 0 }
    {
        self.queue.restart(limit);
        self.pattern = Pattern::from(pattern);
        self.offers = 0;
    }
}

impl<'a> Medium for NoisyMedium<'a> {
    ghost bursts = { λ m. queued m.queue };

    ghost offers = { Sends };

    ghost takes = { Keeps };

    ghost all_carried = { λ m. all_carried m.queue };

    fn offer(&mut self, burst: &[u8]) -> Offer {
        if !is_carried(burst) {
            return Offer::Spoilt;
        }
        let at = self.offers as usize % burst.len();
        self.offers = self.offers.wrapping_add(1);
        if !self.pattern.turn() {
            return self.queue.offer(burst);
        }
        let mut altered = Buffer::<LONGEST>::from_slice(burst).unwrap();
        altered.flip(at);
        let _ = self.queue.offer(altered.as_slice());
        Offer::Spoilt
    }

    fn count(&self) -> usize {
        self.queue.count()
    }

    fn holds(&self, class: Class) -> bool {
        self.queue.holds(class)
    }

    fn take(&mut self, place: &mut [u8; LONGEST]) -> usize {
        self.queue.take(place)
    }
}
