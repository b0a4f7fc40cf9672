// Calls on the end of a name, by its kind. No slip (None) stands in the contracts of those that no slip matters to.
ghost use Rattle.std.specs.Prelude.{◌≡◌, length, IfOk, None, string_bytes};
ghost use Rattle.packet.specs.Refusals.{answer};
ghost use Rattle.station.specs.End.{opening_of, placed_by, seen};
ghost use Rattle.station.specs.Reports.{told, telling};
ghost use Rattle.end_script.specs.Calls as call;
ghost use Rattle.end_bench.specs.Calls.{if_open, changed, is_out, bars_opening, opened, give_line, given, slip_given, call_line, end_after, of_open, slip_after};
ghost use Rattle.end_bench.specs.Fair.{kept};
ghost use Rattle.answers.specs.Checks.{check};
ghost use Rattle.end_bench.specs.Named.{open_end};

use crate::named::OpenEnd;
use crate::{of_kind, slips};
use answers::print::wrong;
use answers::values::FILL;
use end_answers::report::{PLACE, reported};
use end_answers::state;
use packet::refusal::Refusal;
use packet::sum::Sum;
use packet::xor::Xor;
use script_words::fault::Fault;
use script_words::words::Kind;
use secondary::station::DeliverySlip;
use station::end::End;
use station::report::Report;
use std::alloc::{AllocError, Global};

// Whether the end is open and has a delivery out.
fn is_out(end: &Option<OpenEnd>) -> bool
    ensures { result ≡ is_out (open_end end.now) }
{
    match end {
        None => false,
        Some(OpenEnd::Sum(open)) => slips::has_out(open),
        Some(OpenEnd::Xor(open)) => slips::has_out(open),
    }
}

// Whether a slip is kept for the name, or its end has a delivery out.
fn bars_opening(end: &Option<OpenEnd>, slip: &Option<DeliverySlip>) -> bool
    ensures { result ≡ bars_opening (open_end end.now) (kept slip.now) }
{
    slip.is_some() || is_out(end)
}

// A call on the end that is open, whatever its kind; a closure has one type of argument, and so could not be for both.
macro_rules! if_open {
    ($heap:expr, $end:expr, $open:ident => $call:expr) => {
        match $end {
            None => wrong($heap, Fault::NoEnd),
            Some(OpenEnd::Sum($open)) => $call,
            Some(OpenEnd::Xor($open)) => $call,
        }
    };
}

pub(crate) fn submit(
    heap: Global,
    end: &mut Option<OpenEnd>,
    message: &[u8],
) -> Result<String, AllocError>
    ensures printed { IfOk result (λ s. string_bytes s ≡ call_line (open_end end.old) None (call.submit message.now)) }
    ensures after { open_end end.new ≡ end_after (open_end end.old) None (call.submit message.now) }
{
    if_open!(heap, end, open => of_kind::submit(heap, open, message))
}

pub(crate) fn timeout(heap: Global, end: &mut Option<OpenEnd>) -> Result<String, AllocError>
    ensures printed { IfOk result (λ s. string_bytes s ≡ call_line (open_end end.old) None call.timeout) }
    ensures after { open_end end.new ≡ end_after (open_end end.old) None call.timeout }
{
    if_open!(heap, end, open => of_kind::timeout(heap, open))
}

pub(crate) fn arrive(
    heap: Global,
    end: &mut Option<OpenEnd>,
    burst: &[u8],
) -> Result<String, AllocError>
    ensures printed { IfOk result (λ s. string_bytes s ≡ call_line (open_end end.old) None (call.arrive burst.now)) }
    ensures after { open_end end.new ≡ end_after (open_end end.old) None (call.arrive burst.now) }
{
    if_open!(heap, end, open => of_kind::arrive(heap, open, burst))
}

pub(crate) fn collect(heap: Global, end: &mut Option<OpenEnd>) -> Result<String, AllocError>
    ensures printed { IfOk result (λ s. string_bytes s ≡ call_line (open_end end.old) None call.collect) }
    ensures after { open_end end.new ≡ end_after (open_end end.old) None call.collect }
{
    if_open!(heap, end, open => of_kind::collect(heap, open))
}

pub(crate) fn change_settings(
    heap: Global,
    end: &mut Option<OpenEnd>,
    frame: &[u8],
) -> Result<String, AllocError>
    ensures printed { IfOk result (λ s. string_bytes s ≡ call_line (open_end end.old) None (call.settings frame.now)) }
    ensures after { open_end end.new ≡ end_after (open_end end.old) None (call.settings frame.now) }
{
    if_open!(heap, end, open => of_kind::change_settings(heap, open, frame))
}

pub(crate) fn take(
    heap: Global,
    end: &mut Option<OpenEnd>,
    slip: &mut Option<DeliverySlip>,
    place: &mut [u8],
) -> Result<String, AllocError>
    ensures printed { IfOk result (λ s. string_bytes s ≡ call_line (open_end end.old) (kept slip.old) (call.take (length place.old))) }
    ensures after { open_end end.new ≡ end_after (open_end end.old) (kept slip.old) (call.take (length place.old)) }
    ensures slip { kept slip.new ≡ slip_after (open_end end.old) (kept slip.old) (call.take (length place.old)) }
{
    if_open!(heap, end, open => slips::take(heap, open, slip, place))
}

pub(crate) fn give(
    heap: Global,
    end: &mut Option<OpenEnd>,
    slip: &mut Option<DeliverySlip>,
) -> Result<String, AllocError>
    ensures printed { IfOk result (λ s. string_bytes s ≡ if_open (open_end end.old) (λ _ x. give_line (kept slip.old) x)) }
    ensures after { open_end end.new ≡ changed (λ _ x. given (kept slip.old) x) (open_end end.old) }
    ensures slip { kept slip.new ≡ of_open (open_end end.old) (kept slip.old) (λ x. slip_given x (kept slip.old)) }
{
    if_open!(heap, end, open => slips::give(heap, open, slip))
}

pub(crate) fn state(heap: Global, end: &Option<OpenEnd>) -> Result<String, AllocError>
    ensures { IfOk result (λ s. string_bytes s ≡ call_line (open_end end.now) None call.state) }
{
    if_open!(heap, end, open => state::state(heap, open))
}

// Opens an end of a kind; one that the name had is gone, unless this is refused.
// Tried as a trait's method: `the block has no proof, and rattle makes none: a type has a bound whose trait has ghost members`.
fn open_as(
    end: &mut Option<OpenEnd>,
    line: u8,
    kind: Kind,
    frame: &[u8],
    place: &mut [u8; PLACE],
) -> Result<Report, Refusal>
    ensures value { answer told result ≡ seen (telling (check kind)) (opening_of line frame.now) }
    ensures after { open_end end.new ≡ opened kind (opening_of line frame.now) (open_end end.old) }
    ensures placed { place.new ≡ placed_by (check kind) (opening_of line frame.now) place.old }
{
    let (open, report) = match kind {
        Kind::Sum => {
            let (open, report) = End::<Sum>::new(line, frame, place)?;
            (OpenEnd::Sum(open), report)
        }
        Kind::Xor => {
            let (open, report) = End::<Xor>::new(line, frame, place)?;
            (OpenEnd::Xor(open), report)
        }
    };
    *end = Some(open);
    Ok(report)
}

// Opens an end, unless a slip or a delivery bars it. Line, kind and frame are no struct: each clause would name its fields.
pub(crate) fn open(
    heap: Global,
    end: &mut Option<OpenEnd>,
    slip: &Option<DeliverySlip>,
    line: u8,
    kind: Kind,
    frame: &[u8],
) -> Result<String, AllocError>
    ensures printed { IfOk result (λ s. string_bytes s ≡ call_line (open_end end.old) (kept slip.now) (call.opening line kind frame.now)) }
    ensures after { open_end end.new ≡ end_after (open_end end.old) (kept slip.now) (call.opening line kind frame.now) }
{
    if bars_opening(end, slip) {
        return wrong(heap, Fault::SlipKept);
    }
    let mut place = [FILL; PLACE];
    let result = open_as(end, line, kind, frame, &mut place);
    reported(heap, "opened ", result, &place)
}
