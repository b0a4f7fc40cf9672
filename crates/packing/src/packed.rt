// A medium that packs its bursts into a ring of up to 65,536 bytes, each after its length.
ghost use Rattle.ring.specs.Ring.{elements};
ghost use Rattle.packing.specs.Rowed.{Packs};

use ring::Ring;

#[derive(Drop)]
pub struct PackedMedium<'a> {
    pub(crate) ring: Ring<'a, u8>,
    ghost packs: { Packs (elements ring) },
}
