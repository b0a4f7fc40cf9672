// Deliveries that are taken and given back, and the slip that is kept meanwhile.
ghost use Rattle.std.specs.Prelude.{◌≡◌, length, IfOk, if◌then◌else◌, Some, None, string_bytes};
ghost use Rattle.packet.specs.Refusals.{gave};
ghost use Rattle.script_words.specs.declared.fault.Fault.TheVariants as fault;
ghost use Rattle.secondary.specs.Buffers.{oldest_of};
ghost use Rattle.secondary.specs.Station.{take_answer, after_take};
ghost use Rattle.station.specs.End.{with_secondary};
ghost use Rattle.answers.specs.Lines.{wrong};
ghost use Rattle.station.specs.Models.{model};
ghost use Rattle.end_bench.specs.Calls.{give_line, given, slip_given, bars_taking, take_line, taken};
ghost use Rattle.end_bench.specs.Fair.{kept};

use answers::print::{refused, wrong};
use notation::hex::Hex;
use packet::checks::Check;
use script_words::fault::Fault;
use secondary::station::DeliverySlip;
use station::end::End;
use std::alloc::{AllocError, Global};

// Keeps a slip where none is kept. No plain assignment: a slip that was there could not be let go.
fn keep(place: &mut Option<DeliverySlip>, slip: DeliverySlip)
    requires { place.old ≡ None }
    ensures { place.new ≡ Some slip }
{
    match place.replace(slip) {
        None => {}
        Some(_slip) => unreachable(),
    }
}

pub(crate) fn give<K: Check>(
    heap: Global,
    end: &mut End<K>,
    slip: &mut Option<DeliverySlip>,
) -> Result<String, AllocError>
    ensures printed { IfOk result (λ s. string_bytes s ≡ give_line (kept slip.old) (model end.old)) }
    ensures after { model end.new ≡ given (kept slip.old) (model end.old) }
    ensures slip { kept slip.new ≡ slip_given (model end.old) (kept slip.old) }
{
    match slip.take() {
        None => wrong(heap, Fault::NoSlip),
        Some(kept) => match end.give_back(kept) {
            Ok(()) => String::from_str(heap, "given back\n"),
            Err((why, kept)) => {
                keep(slip, kept);
                refused(heap, why)
            }
        },
    }
}

// A delivery that was taken, and its slip.
fn taken(heap: Global, message: &[u8], line: u8, buffer: u8) -> Result<String, AllocError>
    ensures { IfOk result (λ s. string_bytes s ≡ take_line (gave (length message.now, line, buffer)) message.now) }
{
    let length = message.len();
    let message = Hex::of(message);
    format!(in heap; "length={length} message={message} slip={line},{buffer}\n")
}

// Whether the end has a delivery out.
pub(crate) fn has_out<K: Check>(end: &End<K>) -> bool
    ensures { result ≡ (model end.now).secondary.out }
{
    end.holding().buffer_out.is_some()
}

// Whether a slip is kept while the end has no delivery out: a second one would be in its way.
fn bars_taking<K: Check>(end: &End<K>, slip: &Option<DeliverySlip>) -> bool
    ensures { result ≡ bars_taking (model end.now) (kept slip.now) }
{
    slip.is_some() && !has_out(end)
}

pub(crate) fn take<K: Check>(
    heap: Global,
    end: &mut End<K>,
    slip: &mut Option<DeliverySlip>,
    place: &mut [u8],
) -> Result<String, AllocError>
    ensures printed { IfOk result (λ s. string_bytes s ≡ (if bars_taking (model end.old) (kept slip.old) then wrong fault.SlipKept else take_line (take_answer (length place.old) (model end.old).secondary) (oldest_of (model end.old).secondary.held))) }
    ensures after { model end.new ≡ (if bars_taking (model end.old) (kept slip.old) then model end.old else with_secondary (after_take (length place.old) (model end.old).secondary) (model end.old)) }
    ensures slip { kept slip.new ≡ (if bars_taking (model end.old) (kept slip.old) then kept slip.old else taken (take_answer (length place.old) (model end.old).secondary) (kept slip.old)) }
{
    if bars_taking(end, slip) {
        return wrong(heap, Fault::SlipKept);
    }
    match end.take(place) {
        Ok((length, delivery)) => {
            let line = delivery.line();
            let buffer = delivery.buffer();
            keep(slip, delivery);
            taken(heap, &place[0..length], line, buffer)
        }
        Err(why) => refused(heap, why),
    }
}
