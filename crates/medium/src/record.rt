// A burst goes into its record and out of it.
ghost use Rattle.std.specs.Prelude.{◌≡◌, true, [], ◌∷◌, ◌++◌, length, drop, if◌then◌else◌, Some, None, slice_index};
ghost use Rattle.std.specs.Option.{option_map};
ghost use Rattle.medium.specs.Bursts.{Carried, carried};
ghost use Rattle.medium.specs.Records.{bytes_of};

use crate::LONGEST;
use crate::burst::Burst;
use buffer::Buffer;

impl Burst {
    // A burst of one zero byte, to fill memory with.
    pub fn blank() -> Burst
        ensures { bytes_of result ≡ 0 ∷ [] }
    {
        Burst::of(&[0]).unwrap()
    }

    // The record of a burst that a medium carries. Its test is that of `sendable`; two lines are no plainer as a call.
    pub(crate) fn of(burst: &[u8]) -> Option<Burst>
        ensures { option_map bytes_of result ≡ (if carried burst.now then Some burst.now else None) }
    {
        if burst.is_empty() {
            return None;
        }
        let bytes = Buffer::from_slice(burst)?;
        Some(Burst { bytes })
    }

    // Copies the burst to the start of the place, and tells its length.
    pub(crate) fn write(&self, place: &mut [u8; LONGEST]) -> usize
        ensures value { result ≡ length (bytes_of self.now) }
        ensures place { place.new ≡ bytes_of self.now ++ drop result place.old }
    {
        self.bytes.copy_to(place)
    }

    // The second byte; 0 stands for none and is no letter: an Option would be no plainer, as `some_letter` reads 0 too.
    pub(crate) fn letter(&self) -> u8
        ensures { result ≡ slice_index (bytes_of self.now) 1 }
    {
        self.bytes.as_slice().get(1).copied().unwrap_or(0)
    }
}

// Whether a medium carries the burst: it has 1 to 104 bytes.
pub fn is_carried(burst: &[u8]) -> bool
    ensures value { result ≡ carried burst.now }
    ensures bounds { result ≡ true → Carried burst.now }
{
    (1..=LONGEST).contains(&burst.len())
}
