// Carrying out one line of a script.
ghost use Rattle.std.specs.Prelude.{◌≡◌, IfOk, string_bytes};
ghost use Rattle.answers.specs.Leaving.{Left};
ghost use Rattle.script.specs.Told.{request};
ghost use Rattle.bench.specs.Runs.{answered, carried_out, printed, after};
ghost use Rattle.bench.specs.Told.{bench_of};

use crate::joined::JoinedLine;
use crate::joined::running::run_joined;
use answers::print::wrong;
use end_answers::printed_settings::run_settings;
use end_bench::ends::Ends;
use end_bench::ends::running::run_end;
use named_media::media::Media;
use notation::words::without_end;
use script::command::{Command, parse};
use std::alloc::{AllocError, Global};

// What is kept from line to line.
// It cannot be let go: `Ends::close` gives the slips back that are kept.
pub struct Workbench<'a, 'p> {
    pub ends: Ends,
    pub media: Media<'a, 'p>,
    pub joined: JoinedLine<'a, 'p>,
}

// What is printed for a line, with or without its end: no bytes where nothing is asked.
pub fn run_line(
    heap: Global,
    bench: &mut Workbench<'_, '_>,
    line: &[u8],
) -> Result<String, AllocError>
    ensures answer { IfOk result (λ s. string_bytes s ≡ printed (bench_of bench.old) line.now) }
    ensures after { Left result (bench_of bench.old) (after line.now (bench_of bench.old)) (bench_of bench.new) }
{
    match parse(without_end(line)) {
        Ok(None) => Ok(String::new(heap)),
        Ok(Some(command)) => run(heap, bench, command),
        Err(fault) => wrong(heap, fault),
    }
}

// Carries a command out.
fn run(
    heap: Global,
    bench: &mut Workbench<'_, '_>,
    command: Command<'_>,
) -> Result<String, AllocError>
    ensures answer { IfOk result (λ s. string_bytes s ≡ answered (bench_of bench.old) (request command.entry)) }
    ensures after { Left result (bench_of bench.old) (carried_out (request command.entry) (bench_of bench.old)) (bench_of bench.new) }
{
    match command {
        Command::Packet(call) => packet_bench::run::run(heap, call),
        Command::Settings(frame) => run_settings(heap, frame),
        Command::End(command) => run_end(heap, &mut bench.ends, command),
        Command::Medium(command) => medium_bench::run::run(heap, &mut bench.media, command),
        Command::Line(command) => run_joined(heap, &mut bench.joined, command),
    }
}
