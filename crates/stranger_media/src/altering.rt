// A queue that alters every burst: its first byte counts one more, and FF becomes 00.
ghost use Rattle.std.specs.Prelude.{◌≡◌, []};
ghost use Rattle.medium.specs.AllCarried.{all_carried};
ghost use Rattle.medium.specs.Queue.{queued, Over, Kept};
ghost use Rattle.stranger_media.specs.Altering.{Alters};

use buffer::Buffer;
use medium::burst::Burst;
use medium::class::Class;
use medium::offer::Offer;
use medium::queue::QueueMedium;
use medium::record::is_carried;
use medium::{LONGEST, Medium};

#[derive(Drop)]
pub struct AlteringMedium<'a> {
    queue: QueueMedium<'a>,
}

impl<'a> AlteringMedium<'a> {
    // An altering medium with nothing under way, in memory that its user lends.
    pub fn over(slots: &'a mut [Burst]) -> Self
        ensures bursts { queued result.queue ≡ [] }
        ensures ring { Over slots.old result.queue }
    {
        AlteringMedium {
            queue: QueueMedium::over(slots),
        }
    }
}

impl<'a> Medium for AlteringMedium<'a> {
    ghost bursts = { λ m. queued m.queue };

    ghost offers = { Alters };

    ghost takes = { λ m n. Kept m.queue n.queue };

    ghost all_carried = { λ m. all_carried m.queue };

    fn offer(&mut self, burst: &[u8]) -> Offer {
        if !is_carried(burst) {
            return Offer::Spoilt;
        }
        let mut altered = Buffer::<LONGEST>::padded(burst);
        altered[0] = altered[0].wrapping_add(1);
        let _ = self.queue.offer(&altered[..burst.len()]);
        Offer::Spoilt
    }

    fn count(&self) -> usize {
        self.queue.count()
    }

    fn holds(&self, class: Class) -> bool {
        self.queue.holds(class)
    }

    fn take(&mut self, place: &mut [u8; LONGEST]) -> usize {
        self.queue.take(place)
    }
}
