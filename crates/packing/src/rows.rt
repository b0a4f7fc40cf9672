// Bursts into a ring of bytes and out of it, each after its length in two bytes, the high one first.
ghost use Rattle.std.specs.Prelude.{◌≡◌, ◌+◌, ◌≤◌, ◌++◌, length, take, drop, if◌then◌else◌, nat_le};
ghost use Rattle.ring.specs.Ring.{elements, places, InPlace};
ghost use Rattle.medium.specs.Bursts.{Carried};
ghost use Rattle.packing.specs.Rowed.{framed};

use ring::Ring;

// Adds bytes for which there is room. `place` speaks of a call and not of a value, so it stands at each of the three.
fn put_all(ring: &mut Ring<'_, u8>, bytes: &[u8])
    requires { length (elements ring.old) + length bytes.now ≤ places ring.old }
    ensures after { elements ring.new ≡ elements ring.old ++ bytes.now }
    ensures place { InPlace ring.old ring.new }
{
    for b in bytes {
        let _ = ring.put(*b);
    }
}

// Adds a burst after its length; false and nothing added where the two do not fit (a bool, as for `Ring::put`).
pub(crate) fn pack(ring: &mut Ring<'_, u8>, burst: &[u8]) -> bool
    requires { Carried burst.now }
    ensures value { result ≡ nat_le (length (elements ring.old) + (2 + length burst.now)) (places ring.old) }
    ensures after { elements ring.new ≡ (if result then elements ring.old ++ framed burst.now else elements ring.old) }
    ensures place { InPlace ring.old ring.new }
{
    let free = ring.capacity().saturating_sub(ring.count());
    let len = burst.len();
    if 2 + len > free {
        return false;
    }
    let length = (len as u16).to_be_bytes();
    put_all(ring, &length);
    put_all(ring, burst);
    true
}

// Takes out as many bytes as the place has.
pub(crate) fn take_all(ring: &mut Ring<'_, u8>, place: &mut [u8])
    requires { length place.old ≤ length (elements ring.old) }
    ensures after { elements ring.new ≡ drop (length place.old) (elements ring.old) }
    ensures copied { place.new ≡ take (length place.old) (elements ring.old) }
    ensures place { InPlace ring.old ring.new }
{
    for byte in place {
        *byte = ring.take().unwrap();
    }
}
