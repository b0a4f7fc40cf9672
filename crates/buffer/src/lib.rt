// At most N bytes in fixed memory.
#![tactic(auto)]

ghost use Rattle.std.specs.Prelude.{◌≤◌};

mod bytes;

// Its bytes are the first `len` of its memory. Not the library's `ArrayVec`, which is no Copy: a ring holds what is copied.
#[derive(Clone, Copy)]
pub struct Buffer<const N: usize> {
    memory: [u8; N],
    len: usize,
    ghost fits: { len ≤ N },
}
