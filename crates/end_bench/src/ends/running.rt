// Running a line that begins `end`.
ghost use Rattle.std.specs.Prelude.{◌≡◌, IfOk, string_bytes};
ghost use Rattle.answers.specs.Leaving.{Left};
ghost use Rattle.end_script.specs.Told.{call_of, command_of};
ghost use Rattle.end_bench.specs.Bench.{slip_name, printed, after};
ghost use Rattle.end_bench.specs.Calls.{call_line, both, both_after};
ghost use Rattle.end_bench.specs.Fair.{kept};
ghost use Rattle.end_bench.specs.Models.{model};
ghost use Rattle.end_bench.specs.Named.{open_end};

use super::Ends;
use crate::calls;
use crate::named::OpenEnd;
use answers::values::{bytes, place};
use end_script::end::{EndCall, EndCommand, Name};
use secondary::station::DeliverySlip;
use std::alloc::{AllocError, Global};

// A call on the end of a name, with the slip of a name.
fn call_on(
    heap: Global,
    end: &mut Option<OpenEnd>,
    slip: &mut Option<DeliverySlip>,
    call: EndCall<'_>,
) -> Result<String, AllocError>
    ensures printed { IfOk result (λ s. string_bytes s ≡ call_line (open_end end.old) (kept slip.old) (call_of call.entry)) }
    ensures after { Left result (both end.old slip.old) (both_after (open_end end.old) (kept slip.old) (call_of call.entry)) (both end.new slip.new) }
{
    match call {
        EndCall::Open { line, kind, frame } => {
            let frame = bytes(heap, frame)?;
            calls::open(heap, end, slip, line, kind, &frame)
        }
        EndCall::Submit(message) => {
            let message = bytes(heap, message)?;
            calls::submit(heap, end, &message)
        }
        EndCall::Timeout => calls::timeout(heap, end),
        EndCall::Arrive(burst) => {
            let burst = bytes(heap, burst)?;
            calls::arrive(heap, end, &burst)
        }
        EndCall::Take { size } => {
            let mut place = place(heap, size)?;
            calls::take(heap, end, slip, &mut place)
        }
        EndCall::Give { from: _ } => calls::give(heap, end, slip),
        EndCall::Collect => calls::collect(heap, end),
        EndCall::Settings(frame) => {
            let frame = bytes(heap, frame)?;
            calls::change_settings(heap, end, &frame)
        }
        EndCall::State => calls::state(heap, end),
    }
}

// The name whose slip a call is about.
fn slip_name(name: Name, call: EndCall<'_>) -> Name
    ensures { result ≡ slip_name name (call_of call.entry) }
{
    match call {
        EndCall::Give { from } => from,
        _ => name,
    }
}

// Runs a command on the end of its name.
pub fn run_end(heap: Global, ends: &mut Ends, command: EndCommand<'_>) -> Result<String, AllocError>
    ensures printed { IfOk result (λ s. string_bytes s ≡ printed (model ends.old) (command_of command.entry)) }
    ensures after { Left result (model ends.old) (after (model ends.old) (command_of command.entry)) (model ends.new) }
{
    let call = command.call;
    // An arm for each pair of names: tried as two matches, `a reference is one of two borrows, by the path that was taken`.
    match (command.name, slip_name(command.name, call)) {
        (Name::A, Name::A) => call_on(heap, &mut ends.a, &mut ends.a_slip, call),
        (Name::A, Name::B) => call_on(heap, &mut ends.a, &mut ends.b_slip, call),
        (Name::B, Name::A) => call_on(heap, &mut ends.b, &mut ends.a_slip, call),
        (Name::B, Name::B) => call_on(heap, &mut ends.b, &mut ends.b_slip, call),
    }
}
