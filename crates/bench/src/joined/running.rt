// Running a line that begins `line`.
ghost use Rattle.std.specs.Prelude.{◌≡◌, length, IfOk, string_bytes};
ghost use Rattle.answers.specs.Leaving.{Left};
ghost use Rattle.script.specs.Line as lines;
ghost use Rattle.script.specs.LineTold.{call_of, command_of};
ghost use Rattle.bench.specs.LineModels.{joined_of};
ghost use Rattle.bench.specs.LineRuns.{printed, after};

use super::{JoinedLine, OpenLine};
use crate::line_calls;
use answers::print::wrong;
use answers::values::{bytes, place};
use medium_script::spec::Spec;
use packet::sum::Sum;
use packet::xor::Xor;
use script::line::{LineCall, LineCommand};
use script_words::fault::Fault;
use script_words::words::Kind;
use std::alloc::{AllocError, Global};

// A call on the line that is open, whatever its kind; a closure has one type of argument, and so could not be for both.
macro_rules! if_open {
    ($heap:expr, $joined:expr, $line:ident => $call:expr) => {
        match &mut $joined.line {
            None => wrong($heap, Fault::NoLine),
            Some(OpenLine::Sum($line)) => $call,
            Some(OpenLine::Xor($line)) => $call,
        }
    };
}

fn submit(
    heap: Global,
    joined: &mut JoinedLine<'_, '_>,
    side: u8,
    message: &[u8],
) -> Result<String, AllocError>
    ensures printed { IfOk result (λ s. string_bytes s ≡ printed (joined_of joined.old) (lines.at side (lines.submit message.now))) }
    ensures after { joined_of joined.new ≡ after (lines.at side (lines.submit message.now)) (joined_of joined.old) }
{
    if_open!(heap, joined, line => line_calls::submit(heap, line, &mut joined.media, side, message))
}

fn timeout(heap: Global, joined: &mut JoinedLine<'_, '_>, side: u8) -> Result<String, AllocError>
    ensures printed { IfOk result (λ s. string_bytes s ≡ printed (joined_of joined.old) (lines.at side lines.timeout)) }
    ensures after { joined_of joined.new ≡ after (lines.at side lines.timeout) (joined_of joined.old) }
{
    if_open!(heap, joined, line => line_calls::timeout(heap, line, &mut joined.media, side))
}

fn arrive(heap: Global, joined: &mut JoinedLine<'_, '_>, side: u8) -> Result<String, AllocError>
    ensures printed { IfOk result (λ s. string_bytes s ≡ printed (joined_of joined.old) (lines.at side lines.arrive)) }
    ensures after { joined_of joined.new ≡ after (lines.at side lines.arrive) (joined_of joined.old) }
{
    if_open!(heap, joined, line => line_calls::arrive(heap, line, &mut joined.media, side))
}

fn read(
    heap: Global,
    joined: &mut JoinedLine<'_, '_>,
    side: u8,
    place: &mut [u8],
) -> Result<String, AllocError>
    ensures printed { IfOk result (λ s. string_bytes s ≡ printed (joined_of joined.old) (lines.at side (lines.read (length place.old)))) }
    ensures after { joined_of joined.new ≡ after (lines.at side (lines.read (length place.old))) (joined_of joined.old) }
{
    if_open!(heap, joined, line => line_calls::read(heap, line, &joined.media, side, place))
}

fn collect(heap: Global, joined: &mut JoinedLine<'_, '_>, side: u8) -> Result<String, AllocError>
    ensures printed { IfOk result (λ s. string_bytes s ≡ printed (joined_of joined.old) (lines.at side lines.collect)) }
    ensures after { joined_of joined.new ≡ after (lines.at side lines.collect) (joined_of joined.old) }
{
    if_open!(heap, joined, line => line_calls::collect(heap, line, &joined.media, side))
}

fn change_settings(
    heap: Global,
    joined: &mut JoinedLine<'_, '_>,
    side: u8,
    frame: &[u8],
) -> Result<String, AllocError>
    ensures printed { IfOk result (λ s. string_bytes s ≡ printed (joined_of joined.old) (lines.at side (lines.settings frame.now))) }
    ensures after { joined_of joined.new ≡ after (lines.at side (lines.settings frame.now)) (joined_of joined.old) }
{
    if_open!(heap, joined, line => line_calls::change_settings(heap, line, &joined.media, side, frame))
}

fn state(heap: Global, joined: &JoinedLine<'_, '_>, side: u8) -> Result<String, AllocError>
    ensures { IfOk result (λ s. string_bytes s ≡ printed (joined_of joined.now) (lines.at side lines.state)) }
{
    match &joined.line {
        None => wrong(heap, Fault::NoLine),
        Some(OpenLine::Sum(line)) => line_calls::state(heap, line, side),
        Some(OpenLine::Xor(line)) => line_calls::state(heap, line, side),
    }
}

// Opens a line over media that are made anew; one that was open is gone, also where this is refused. Kind, frames and media are
// no struct: each clause would name its fields.
fn open(
    heap: Global,
    joined: &mut JoinedLine<'_, '_>,
    kind: Kind,
    west: &[u8],
    east: &[u8],
    eastward: Spec,
    westward: Spec,
) -> Result<String, AllocError>
    ensures printed { IfOk result (λ s. string_bytes s ≡ printed (joined_of joined.old) (lines.opening kind west.now east.now eastward westward)) }
    ensures after { joined_of joined.new ≡ after (lines.opening kind west.now east.now eastward westward) (joined_of joined.old) }
{
    joined.media.eastward.restart(eastward);
    joined.media.westward.restart(westward);
    match kind {
        Kind::Sum => {
            let (line, answer) = line_calls::open::<Sum>(heap, &mut joined.media, west, east);
            joined.line = line.map(OpenLine::Sum);
            answer
        }
        Kind::Xor => {
            let (line, answer) = line_calls::open::<Xor>(heap, &mut joined.media, west, east);
            joined.line = line.map(OpenLine::Xor);
            answer
        }
    }
}

// A call at the side of a number.
fn call_on(
    heap: Global,
    joined: &mut JoinedLine<'_, '_>,
    side: u8,
    call: LineCall<'_>,
) -> Result<String, AllocError>
    ensures printed { IfOk result (λ s. string_bytes s ≡ printed (joined_of joined.old) (lines.at side (call_of call.entry))) }
    ensures after { Left result (joined_of joined.old) (after (lines.at side (call_of call.entry)) (joined_of joined.old)) (joined_of joined.new) }
{
    match call {
        LineCall::Submit(message) => {
            let message = bytes(heap, message)?;
            submit(heap, joined, side, &message)
        }
        LineCall::Timeout => timeout(heap, joined, side),
        LineCall::Arrive => arrive(heap, joined, side),
        LineCall::Read { size } => {
            let mut place = place(heap, size)?;
            read(heap, joined, side, &mut place)
        }
        LineCall::Collect => collect(heap, joined, side),
        LineCall::Settings(frame) => {
            let frame = bytes(heap, frame)?;
            change_settings(heap, joined, side, &frame)
        }
        LineCall::State => state(heap, joined, side),
    }
}

// Runs a command on the line.
pub fn run_joined(
    heap: Global,
    joined: &mut JoinedLine<'_, '_>,
    command: LineCommand<'_>,
) -> Result<String, AllocError>
    ensures printed { IfOk result (λ s. string_bytes s ≡ printed (joined_of joined.old) (command_of command.entry)) }
    ensures after { Left result (joined_of joined.old) (after (command_of command.entry) (joined_of joined.old)) (joined_of joined.new) }
{
    match command {
        LineCommand::Open {
            kind,
            west,
            east,
            eastward,
            westward,
        } => {
            let west = bytes(heap, west)?;
            let east = bytes(heap, east)?;
            open(heap, joined, kind, &west, &east, eastward, westward)
        }
        LineCommand::At(side, call) => call_on(heap, joined, side, call),
    }
}
