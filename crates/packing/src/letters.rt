// The letters of the bursts that are packed in a ring of bytes.
ghost use Rattle.std.specs.Prelude.{◌≡◌, length, drop};
ghost use Rattle.ring.specs.Ring.{elements};
ghost use Rattle.packing.specs.Rowed.{Packs};

use crate::packed::PackedMedium;
use ring::Ring;

// From byte `at` to the end there are bursts, each after its length, and nothing else. The letter
// of a burst is its second byte; 0 stands for none and is no letter, as in `some_letter`.
// Steps by `at`, and not over the bytes one by one, since a step passes a whole burst.
#[derive(Drop)]
pub(crate) struct Letters<'r, 'a> {
    ring: &'r Ring<'a, u8>,
    at: usize,
    end: usize,
    ghost packs: { Packs (drop at (elements ring.now)) },
    ghost all: { end ≡ length (elements ring.now) },
}

impl<'a> PackedMedium<'a> {
    ghost use Rattle.std.specs.Prelude.{◌≡◌, ◌^◌, ◌<◌, length};
    ghost use Rattle.packing.specs.Letters.{letters_of, left};
    ghost use Rattle.packing.specs.Packed.{carries};

    // The letters of its bursts, from the oldest on.
    pub(crate) fn letters(&self) -> Letters<'_, 'a>
        ensures letters { left result ≡ letters_of (carries self.now) }
        ensures counted { length (left result) < 2 ^ 64 }
    {
        Letters {
            ring: &self.ring,
            at: 0,
            end: self.ring.count(),
        }
    }
}

impl<'r, 'a> Letters<'r, 'a> {
    ghost use Rattle.std.specs.Prelude.{◌≡◌, ◌<◌, slice_index};
    ghost use Rattle.packing.specs.Rowed.{lying, Lies};

    // The length of the next burst.
    fn length(&self) -> usize
        requires { self.now.at < self.now.end }
        ensures { Lies (elements self.now.ring.now) self.now.at result }
    {
        let high = self.ring.look(self.at).unwrap();
        let low = self.ring.look(self.at + 1).unwrap();
        u16::from_be_bytes([high, low]) as usize
    }

    // The letter of the next burst, whose length is `len`.
    fn letter(&self, len: usize) -> u8
        requires { Lies (elements self.now.ring.now) self.now.at len }
        ensures { result ≡ slice_index (lying (elements self.now.ring.now) self.now.at len) 1 }
    {
        if len > 1 {
            self.ring.look(self.at + 3).unwrap()
        } else {
            0
        }
    }
}

impl<'r, 'a> Iterator for Letters<'r, 'a> {
    ghost use Rattle.std.specs.Iterator.{YieldsFirst, item_count};
    ghost use Rattle.packing.specs.Letters.{left};

    type Item = u8;

    ghost next_gives = { YieldsFirst left };

    ghost remaining = { item_count left };

    fn next(&mut self) -> Option<u8> {
        if self.at >= self.end {
            return None;
        }
        let len = self.length();
        let letter = self.letter(len);
        self.at += 2 + len;
        Some(letter)
    }
}
