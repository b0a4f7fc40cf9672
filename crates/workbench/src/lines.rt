// The lines of the input, of any length and any bytes.
ghost use Rattle.std.specs.Prelude.{IfOk, IfSome};
ghost use Rattle.workbench.specs.Lines.{Taken};

use script_words::arguments::Arguments;
use std::alloc::Global;
use std::io;
use std::io::{BufRead, ErrorKind};

// There was no memory for a line, and it was passed over.
#[derive(Clone, Copy, Debug, PartialEq, Eq)]
pub(crate) struct TooLong;

// Takes the next line into `line`; none at the end of the input. A line that there is no memory for is passed over.
pub(crate) fn take_line<R: BufRead>(
    heap: Global,
    input: &mut R,
    line: &mut Vec<u8>,
) -> io::Result<Option<Result<(), TooLong>>>
    ensures { IfOk result (λ taken. IfSome (R.Read.remaining input.old) (λ script.
        Taken script taken line.new.items (R.Read.remaining input.new))) }
{
    line.clear();
    // No type knows the input's length, which bounds the turns: each but the last drops bytes that filled the memory.
    for _ in 0..u64::MAX {
        match input.read_until(b'\n', line) {
            Ok(_) if line.is_empty() => return Ok(None),
            Ok(_) => return Ok(Some(Ok(()))),
            Err(error) if error.kind() != ErrorKind::OutOfMemory => return Err(error),
            // No contract says that reading failed before the line's end.
            Err(_) if line.contains(&b'\n') => return Ok(Some(Ok(()))),
            // Of spaces, and of a comment, the first byte says as much as all of them.
            Err(_) if line.len() > 1 && Arguments::of(line).is_none() => line.truncate(1),
            Err(_) => {
                let is_begun = !line.is_empty();
                *line = Vec::new(heap);
                let is_there = input.skip_until(b'\n')? > 0 || is_begun;
                return Ok(is_there.then_some(Err(TooLong)));
            }
        }
    }
    Err(io::Error::from(ErrorKind::Other))
}
