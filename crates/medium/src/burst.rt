// A burst as a record of fixed size.
ghost use Rattle.std.specs.Prelude.{◌<◌, length};
ghost use Rattle.buffer.specs.Buffers.{contents};

use crate::LONGEST;
use buffer::Buffer;

#[derive(Clone, Copy)]
pub struct Burst {
    pub(crate) bytes: Buffer<LONGEST>,
    ghost some: { 0 < length (contents bytes) },
}
