// A medium that is a queue of up to 4,096 bursts.
ghost use Rattle.std.specs.Prelude.{◌≡◌, []};
ghost use Rattle.medium.specs.AllCarried.{all_carried};
ghost use Rattle.medium.specs.Queue.{queued, Over, Anew, TakesIn, Kept};

use crate::burst::Burst;
use crate::class::Class;
use crate::offer::Offer;
use crate::{LONGEST, Medium};
use ring::Ring;

// The most bursts of a queue.
pub const QUEUE_LIMIT: usize = 4096;

#[derive(Drop)]
pub struct QueueMedium<'a> {
    ring: Ring<'a, Burst>,
}

impl<'a> QueueMedium<'a> {
    // A queue with nothing under way, in memory that its user lends. Memory beyond the limit
    // is never written.
    pub fn over(slots: &'a mut [Burst]) -> Self
        ensures bursts { queued result ≡ [] }
        ensures ring { Over slots.old result }
    {
        QueueMedium {
            ring: Ring::over(slots, QUEUE_LIMIT),
        }
    }

    // Starts anew with nothing under way, in up to `limit` places of its memory.
    pub fn restart(&mut self, limit: usize)
        ensures bursts { queued self.new ≡ [] }
        ensures ring { Anew self.old limit self.new }
    {
        self.ring.restart(limit.min(QUEUE_LIMIT));
    }
}

impl<'a> Medium for QueueMedium<'a> {
    ghost bursts = { queued };

    ghost offers = { TakesIn };

    ghost takes = { Kept };

    ghost all_carried = { all_carried };

    fn offer(&mut self, burst: &[u8]) -> Offer {
        let Some(record) = Burst::of(burst) else {
            return Offer::Spoilt;
        };
        if self.ring.put(record) {
            Offer::Whole
        } else {
            Offer::Spoilt
        }
    }

    #[tactic(auto, using(crate::specs::AllCarried::all_carried))]
    fn count(&self) -> usize {
        self.ring.count()
    }

    fn holds(&self, class: Class) -> bool {
        self.ring.iter().any(|burst| class.has(burst.letter()))
    }

    fn take(&mut self, place: &mut [u8; LONGEST]) -> usize {
        let Some(burst) = self.ring.take() else {
            return 0;
        };
        burst.write(place)
    }
}
