// Answering a script.
ghost use Rattle.std.specs.Prelude.{◌≡◌, [], Some, IfOk, IfSome, OnOk};
ghost use Rattle.std.specs.Io.Buffered.{reader_remaining, writer_contents};
ghost use Rattle.std.specs.Io.KnownBytes.{Keeps};
ghost use Rattle.bench.specs.Told.{bench_of};
ghost use Rattle.workbench.specs.Answers.{Shown, Stepped, Written};
ghost use Rattle.workbench.specs.Lines.{lines};

use crate::lines::{TooLong, take_line};
use answers::print::out_of_memory;
use bench::run::{Workbench, run_line};
use std::alloc::Global;
use std::io;
use std::io::{BufReader, BufWriter, ErrorKind, Read, Write};

// Writes the answers out, unless a whole line is at hand: without one the program waits for more input.
fn show<R: Read, W: Write + Drop>(input: &BufReader<R>, output: &mut BufWriter<W>) -> io::Result<()>
    ensures bytes { Keeps (writer_contents W.contents output.old) (writer_contents W.contents output.new) }
    ensures shown { OnOk result (Shown input.now output.new) }
{
    if input.buffer().contains(&b'\n') {
        return Ok(());
    }
    output.flush()
}

// Answers the next line of the input into the output, if there is one, and tells whether there was.
fn answer_line<R: Read, W: Write + Drop>(
    heap: Global,
    input: &mut BufReader<R>,
    output: &mut BufWriter<W>,
    bench: &mut Workbench<'_, '_>,
    line: &mut Vec<u8>,
) -> io::Result<bool>
    requires { Shown input.old output.old }
    ensures { IfOk result (λ more. IfSome (reader_remaining R.remaining input.old) (λ script.
        Stepped more (bench_of bench.old) script (reader_remaining R.remaining input.new)
        (writer_contents W.contents output.old) (writer_contents W.contents output.new) (bench_of bench.new))) }
{
    match take_line(heap, input, line)? {
        None => return Ok(false),
        Some(Ok(())) => match run_line(heap, bench, line) {
            Ok(answer) => output.write_all(answer.as_bytes())?,
            Err(_) => output.write_all(out_of_memory().as_bytes())?,
        },
        Some(Err(TooLong)) => output.write_all(out_of_memory().as_bytes())?,
    }
    Ok(true)
}

// Answers each line of the input, until it ends.
pub(crate) fn answer_lines<R: Read, W: Write + Drop>(
    heap: Global,
    input: &mut BufReader<R>,
    output: &mut BufWriter<W>,
    bench: &mut Workbench<'_, '_>,
) -> io::Result<()>
    ensures end { OnOk result (IfSome (reader_remaining R.remaining input.old) (λ _. reader_remaining R.remaining input.new ≡ Some [])) }
    ensures answers { OnOk result (IfSome (reader_remaining R.remaining input.old) (λ script.
        Written (bench_of bench.old) (lines script) (writer_contents W.contents output.old) (writer_contents W.contents output.new) (bench_of bench.new))) }
{
    let mut line = Vec::new(heap);
    // Input has an end that no type knows, so the count is as good as none.
    for _ in 0..u64::MAX {
        show(input, output)?;
        if !answer_line(heap, input, output, bench, &mut line)? {
            return Ok(());
        }
    }
    Err(io::Error::from(ErrorKind::Other))
}
