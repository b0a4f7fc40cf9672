// A medium whose kind is chosen at run time.
ghost use Rattle.std.specs.Prelude.{◌≡◌, min, [], length};
ghost use Rattle.medium_script.specs.declared.spec.Base.TheVariants as base;
ghost use Rattle.ring.specs.Ring as ring;
ghost use Rattle.named_media.specs.AllCarried.{all_carried};
ghost use Rattle.named_media.specs.Chosen.{carrier, memory, bursts, Offers, Takes};
ghost use Rattle.named_media.specs.Media.{carrier_of, memory_of, begun};

use medium::burst::Burst;
use medium::class::Class;
use medium::offer::Offer;
use medium::queue::QueueMedium;
use medium::{LONGEST, Medium};
use medium_script::spec::{Base, Spec};
use noise::lossy::LossyMedium;
use noise::noisy::NoisyMedium;
use packing::packed::PackedMedium;

#[derive(Clone, Copy, Debug, PartialEq, Eq)]
pub enum MediumKind {
    Queue,
    Packed,
    Noisy,
}

// Its memory serves for every kind; a medium that loses nothing is one whose pattern of loss has no bit.
#[derive(Drop)]
pub struct ChosenMedium<'a, 'p> {
    kind: MediumKind,
    queue: LossyMedium<QueueMedium<'a>>,
    packed: LossyMedium<&'p mut PackedMedium<'a>>,
    noisy: LossyMedium<NoisyMedium<'a>>,
}

impl<'a, 'p> ChosenMedium<'a, 'p> {
    // A queue with nothing under way that loses nothing, until another kind is chosen.
    pub fn over(
        queue: &'a mut [Burst],
        packed: &'p mut PackedMedium<'a>,
        noisy: &'a mut [Burst],
    ) -> Self
        ensures carrier { carrier result ≡ carrier_of (base.Queue (min (length queue.old) 4096)) 0 0 [] }
        ensures memory { memory result ≡ memory_of (length queue.old) (length (ring.memory packed.old.ring)) (length noisy.old) }
    {
        ChosenMedium {
            kind: MediumKind::Queue,
            queue: LossyMedium::over(QueueMedium::over(queue), 0),
            packed: LossyMedium::over(packed, 0),
            noisy: LossyMedium::over(NoisyMedium::over(noisy, 0), 0),
        }
    }

    // Starts anew with nothing under way, as the medium that is asked for.
    pub fn restart(&mut self, spec: Spec)
        ensures carrier { carrier self.new ≡ begun spec (memory self.old) }
        ensures memory { memory self.new ≡ memory self.old }
    {
        let loss = spec.loss.unwrap_or(0);
        match spec.base {
            Base::Queue { places } => {
                self.kind = MediumKind::Queue;
                self.queue.medium.restart(places);
                self.queue.restart(loss);
            }
            Base::Packed { bytes } => {
                self.kind = MediumKind::Packed;
                self.packed.medium.restart(bytes);
                self.packed.restart(loss);
            }
            Base::Noisy { places, pattern } => {
                self.kind = MediumKind::Noisy;
                self.noisy.medium.restart(places, pattern);
                self.noisy.restart(loss);
            }
        }
    }
}

// Each call matches three types: through a `&mut dyn Medium` nothing would be known of places, patterns and counts.
impl<'a, 'p> Medium for ChosenMedium<'a, 'p> {
    ghost bursts = { bursts };

    ghost offers = { Offers };

    ghost takes = { Takes };

    ghost all_carried = { all_carried };

    fn offer(&mut self, burst: &[u8]) -> Offer {
        match self.kind {
            MediumKind::Queue => self.queue.offer(burst),
            MediumKind::Packed => self.packed.offer(burst),
            MediumKind::Noisy => self.noisy.offer(burst),
        }
    }

    fn count(&self) -> usize {
        match self.kind {
            MediumKind::Queue => self.queue.count(),
            MediumKind::Packed => self.packed.count(),
            MediumKind::Noisy => self.noisy.count(),
        }
    }

    fn holds(&self, class: Class) -> bool {
        match self.kind {
            MediumKind::Queue => self.queue.holds(class),
            MediumKind::Packed => self.packed.holds(class),
            MediumKind::Noisy => self.noisy.holds(class),
        }
    }

    fn take(&mut self, place: &mut [u8; LONGEST]) -> usize {
        match self.kind {
            MediumKind::Queue => self.queue.take(place),
            MediumKind::Packed => self.packed.take(place),
            MediumKind::Noisy => self.noisy.take(place),
        }
    }
}
