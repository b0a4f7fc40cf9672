// What the calls on a line return, in print.
ghost use Rattle.std.specs.Prelude.{◌≡◌, [], Some, None, IfOk, string_bytes};
ghost use Rattle.packet.specs.Refusals.{gave};
ghost use Rattle.agreement.specs.Calls.{read};
ghost use Rattle.line.specs.Models.{said, offer_told};
ghost use Rattle.bench.specs.LineAnswers.{said_line};
ghost use Rattle.bench.specs.LineTold.{placed_report, burst_in, opened_told};

use answers::print::{OrNone, refused};
use end_answers::report::{PLACE, PlacedPacket, TimerAndOutcomes};
use line::LineReport;
use notation::hex::Hex;
use packet::refusal::Refusal;
use std::alloc::{AllocError, Global};
use std::fmt;

// A report, and the place that its call was lent.
#[derive(Clone, Copy)]
pub(crate) struct PlacedReport<'a> {
    pub report: LineReport,
    pub place: &'a [u8; PLACE],
}

impl<'a> fmt::Display for PlacedReport<'a> {
    ghost output = { λ placed. Some (placed_report placed.report placed.place.now) };

    fn fmt<W: fmt::Write>(&self, f: &mut fmt::Formatter<W>) -> fmt::Result {
        let packet = PlacedPacket {
            report: self.report.end,
            place: self.place,
        };
        let offer = OrNone(self.report.offer);
        let rest = TimerAndOutcomes(self.report.end);
        write!(f, "{packet} offer={offer} {rest}")
    }
}

// What a call that can send returned.
pub(crate) fn reported(
    heap: Global,
    res: Result<LineReport, Refusal>,
    place: &[u8; PLACE],
) -> Result<String, AllocError>
    ensures { IfOk result (λ s. string_bytes s ≡ said_line (burst_in res place.now) (offer_told res) (said res)) }
{
    match res {
        Ok(report) => {
            let report = PlacedReport { report, place };
            format!(in heap; "{report}\n")
        }
        Err(why) => refused(heap, why),
    }
}

// What both ends did at an opening.
pub(crate) fn opened(
    heap: Global,
    west: PlacedReport<'_>,
    east: PlacedReport<'_>,
) -> Result<String, AllocError>
    ensures { IfOk result (λ s. string_bytes s ≡ opened_told west.entry.report west.entry.place.now east.entry.report east.entry.place.now) }
{
    format!(in heap; "opened west {west} east {east}\n")
}

// A message that was read out.
pub(crate) fn message(heap: Global, message: &[u8]) -> Result<String, AllocError>
    ensures { IfOk result (λ s. string_bytes s ≡ said_line [] None (gave (read message.now))) }
{
    let length = message.len();
    let message = Hex::of(message);
    format!(in heap; "length={length} message={message}\n")
}
