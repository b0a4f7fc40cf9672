// A medium that is lent to a layer, and what its lender knows of it once the layer is gone.
ghost use Rattle.std.specs.Prelude.{◌≡◌, cond, not, ◌&&◌, [], ◌∷◌, ◌++◌};
ghost use Rattle.medium.specs.Bursts.{carried};
ghost use Rattle.medium.specs.Offered.{whole_if};
ghost use Rattle.medium.specs.Queue.{queued, free};
ghost use Rattle.noise.specs.Lossy.{Below};
ghost use Rattle.noise.specs.Patterns.{low};

use medium::Medium;
use medium::offer::Offer;
use medium::queue::QueueMedium;
use noise::lossy::LossyMedium;

// Offers a burst through a lossy layer over a lent medium, which is then let go. Over a type that holds a reference itself, as a
// queue does, a proof does not know where the loan ends, so the layer is made over any medium, and called for one.
pub fn through<M: Medium>(medium: &mut M, pattern: u32, burst: &[u8]) -> Offer
    ensures { Below (carried burst.now && not (low pattern)) M.Medium.offers medium.old burst.now result medium.new }
{
    let mut layer = LossyMedium::over(medium, pattern);
    layer.offer(burst)
}

// The same of a queue.
pub fn through_to_queue(queue: &mut QueueMedium<'_>, pattern: u32, burst: &[u8]) -> Offer
    ensures answer { result ≡ whole_if (carried burst.now && not (low pattern) && free queue.old) }
    ensures bursts { queued queue.new ≡ cond (carried burst.now && not (low pattern) && free queue.old) (queued queue.old ++ burst.now ∷ []) (queued queue.old) }
{
    through(queue, pattern, burst)
}
