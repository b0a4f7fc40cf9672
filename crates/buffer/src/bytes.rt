// The bytes of a buffer.
ghost use Rattle.std.specs.Prelude.{◌≡◌, ◌-◌, ◌≤◌, min, [], ◌++◌, length, take, drop, replicate, if◌then◌else◌, Some, None, nat_le};
ghost use Rattle.std.specs.Option.{option_map};
ghost use Rattle.buffer.specs.Buffers.{contents, flipped};

use crate::Buffer;

impl<const N: usize> Buffer<N> {
    // A buffer of no bytes.
    pub fn new() -> Self
        ensures { contents result ≡ [] }
    {
        Buffer {
            memory: [0; N],
            len: 0,
        }
    }

    // The first N of these bytes, and zeros behind them. The copy is by index: of a slice from `get_mut` a proof knows the
    // length alone.
    pub fn padded(bytes: &[u8]) -> [u8; N]
        ensures { result ≡ take N bytes.now ++ replicate (N - length bytes.now) 0 }
    {
        let len = bytes.len().min(N);
        let mut memory = [0; N];
        memory[..len].copy_from_slice(&bytes[..len]);
        memory
    }

    // A buffer of these bytes; none where they are more than N, which each caller has its own refusal for.
    pub fn from_slice(bytes: &[u8]) -> Option<Self>
        ensures { option_map contents result ≡ (if nat_le (length bytes.now) N then Some bytes.now else None) }
    {
        let len = bytes.len();
        if len > N {
            return None;
        }
        let memory = Self::padded(bytes);
        Some(Buffer { memory, len })
    }

    // Its bytes.
    pub fn as_slice(&self) -> &[u8]
        ensures bytes { result.now ≡ contents self.now }
        ensures bound { length result.now ≤ N }
    {
        &self.memory[..self.len]
    }

    // Inverts the lowest bit of the byte at a place, if there is one.
    pub fn flip(&mut self, at: usize)
        ensures { contents self.new ≡ flipped (contents self.old) at }
    {
        if at < self.len {
            self.memory[at] ^= 1;
        }
    }

    // Copies to the front of a place as many bytes as it has room for, and tells how many.
    pub fn copy_to(&self, place: &mut [u8]) -> usize
        ensures value { result ≡ min (length (contents self.now)) (length place.old) }
        ensures copied { place.new ≡ take result (contents self.now) ++ drop result place.old }
    {
        let n = self.len.min(place.len());
        place[..n].copy_from_slice(&self.memory[..n]);
        n
    }
}
