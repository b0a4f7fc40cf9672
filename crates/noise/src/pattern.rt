// A pattern of 32 bits that says which of the offers to hit.
ghost use Rattle.std.specs.Prelude.{◌≡◌};
ghost use Rattle.noise.specs.Patterns.{low, turned};

#[derive(Clone, Copy)]
pub struct Pattern {
    bits: u32,
}

impl From<u32> for Pattern {
    ghost from_gives = { λ bits pattern. pattern.bits ≡ bits };

    fn from(bits: u32) -> Pattern {
        Pattern { bits }
    }
}

impl Pattern {
    // Whether the lowest bit is 1; the pattern then turns left by one bit.
    pub(crate) fn turn(&mut self) -> bool
        ensures value { result ≡ low self.old.bits }
        ensures after { self.new.bits ≡ turned self.old.bits }
    {
        let hit = self.bits % 2 == 1;
        self.bits = self.bits.rotate_left(1);
        hit
    }
}
