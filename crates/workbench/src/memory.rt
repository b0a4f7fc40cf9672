// Memory for the media, which serves as long as the program runs.
// No function makes the media of both names: a Result with a `&mut` to a packed medium, itself a borrower, gets no proof.
ghost use Rattle.std.specs.Prelude.{◌≡◌, [], length, IfOk};
ghost use Rattle.packing.specs.Packed.{carries};
ghost use Rattle.ring.specs.Ring.{places};

use medium::burst::Burst;
use medium::queue::QUEUE_LIMIT;
use packing::packed::PackedMedium;
use packing::packed_medium::PACKED_LIMIT;
use std::alloc::{AllocError, Global};

// A packed medium of the most places, with nothing under way.
pub(crate) fn packed_medium(heap: Global) -> Result<PackedMedium<'static>, AllocError>
    ensures bursts { IfOk result (λ p. carries p ≡ []) }
    ensures places { IfOk result (λ p. places p.ring ≡ 65536) }
{
    let bytes = vec![in heap; 0u8; PACKED_LIMIT]?;
    Ok(PackedMedium::over(bytes.leak()))
}

// Places for a queue of the most bursts.
pub(crate) fn bursts(heap: Global) -> Result<&'static mut [Burst], AllocError>
    ensures { IfOk result (λ s. length s.now ≡ 4096) }
{
    Ok(vec![in heap; Burst::blank(); QUEUE_LIMIT]?.leak())
}
