// What a packed medium does.
ghost use Rattle.std.specs.Prelude.{◌≡◌, []};
ghost use Rattle.packing.specs.AllCarried.{all_carried};
ghost use Rattle.packing.specs.Packed.{carries, Over, Anew, PacksIn, Kept};

use crate::packed::PackedMedium;
use crate::rows;
use medium::class::Class;
use medium::offer::Offer;
use medium::record::is_carried;
use medium::{LONGEST, Medium};
use ring::Ring;

// The most bytes of a packed medium, lengths counted.
pub const PACKED_LIMIT: usize = 65536;

// `over` and `restart` are those of a queue in shape alone: each states what its own ring holds.
impl<'a> PackedMedium<'a> {
    // A packed medium with nothing under way, in memory that its user lends. Memory beyond the
    // limit is never written.
    pub fn over(slots: &'a mut [u8]) -> Self
        ensures bursts { carries result ≡ [] }
        ensures ring { Over slots.old result }
    {
        PackedMedium {
            ring: Ring::over(slots, PACKED_LIMIT),
        }
    }

    // Starts anew with nothing under way, in up to `limit` bytes of its memory.
    pub fn restart(&mut self, limit: usize)
        ensures bursts { carries self.new ≡ [] }
        ensures ring { Anew self.old limit self.new }
    {
        self.ring.restart(limit.min(PACKED_LIMIT));
    }
}

impl<'a> Medium for PackedMedium<'a> {
    ghost bursts = { carries };

    ghost offers = { PacksIn };

    ghost takes = { Kept };

    ghost all_carried = { all_carried };

    fn offer(&mut self, burst: &[u8]) -> Offer {
        if !is_carried(burst) {
            return Offer::Spoilt;
        }
        if rows::pack(&mut self.ring, burst) {
            Offer::Whole
        } else {
            Offer::Spoilt
        }
    }

    fn count(&self) -> usize {
        self.letters().count()
    }

    fn holds(&self, class: Class) -> bool {
        self.letters().any(|letter| class.has(letter))
    }

    fn take(&mut self, place: &mut [u8; LONGEST]) -> usize {
        let Some(high) = self.ring.take() else {
            return 0;
        };
        let low = self.ring.take().unwrap();
        let len = u16::from_be_bytes([high, low]) as usize;
        rows::take_all(&mut self.ring, &mut place[..len]);
        len
    }
}
