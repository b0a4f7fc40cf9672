// What a call is lent.
ghost use Rattle.std.specs.Prelude.{◌≡◌, replicate, IfOk};
ghost use Rattle.script_words.specs.Told.{bytes_of};

use notation::hex::decode;
use script_words::words::Bytes;
use std::alloc::{AllocError, Global};

// What stands in a place before a call is lent it.
pub const FILL: u8 = 0xEE;

// The bytes that a line writes.
pub fn bytes(heap: Global, bytes: Bytes<'_>) -> Result<Vec<u8>, AllocError>
    ensures { IfOk result (λ v. v.items ≡ bytes_of bytes.entry) }
{
    match bytes {
        Bytes::Pairs(pairs) => decode(heap, pairs),
        Bytes::Text(text) => Vec::from_slice(heap, text),
    }
}

// A place of `size` bytes to lend to a call.
pub fn place(heap: Global, size: usize) -> Result<Vec<u8>, AllocError>
    ensures { IfOk result (λ v. v.items ≡ replicate size 0xee) }
{
    vec![in heap; FILL; size]
}
