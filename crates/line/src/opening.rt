//! The opening of a line.
ghost use Rattle.std.specs.Prelude.{◌≡◌, IfOk, None};
ghost use Rattle.packet.specs.Refusals.{answer};
ghost use Rattle.agreement.specs.Calls.{Offers, burst_of, reported};
ghost use Rattle.agreement.specs.Line.{side_number};
ghost use Rattle.agreement.specs.Opening.{settings_agreed, opening};
ghost use Rattle.agreement.specs.Promise.{Reached, Kept};
ghost use Rattle.agreement.specs.Transcript.{opened};
ghost use Rattle.agreement.specs.declared.sides.Side.TheVariants.{West, East};
ghost use Rattle.line.specs.Media.{OfferedOnce};
ghost use Rattle.line.specs.Models.{line_of, report_said};
ghost use Rattle.line.specs.Opened.{SideOpened};
ghost use Rattle.station.specs.End.{opened as end_opened, burst, written_over};
ghost use Rattle.station.specs.Models.{model};
ghost use Rattle.station.specs.Reports.{telling};

use crate::at_side::pass_on;
use crate::opened::Line;
use crate::report::{LineReport, Opened};
use agreement::Side;
use medium::{LONGEST, Medium};
use packet::checks::Check;
use packet::refusal::Refusal;
use settings::settings::parse;
use settings::values::Settings;
use station::end::End;

/// The settings of west and east, where a line can be opened.
fn agree<E: Medium, W: Medium>(
    west_frame: &[u8],
    east_frame: &[u8],
    eastward: &E,
    westward: &W,
) -> Result<(Settings, Settings), Refusal>
    ensures { answer (λ s. s) result ≡ settings_agreed west_frame.now east_frame.now (E.Medium.bursts eastward.now) (W.Medium.bursts westward.now) }
{
    let west = parse(west_frame)?;
    let east = parse(east_frame)?;
    if eastward.count() != 0 || westward.count() != 0 {
        return Err(Refusal::MediumInUse);
    }
    Ok((west, east))
}

/// Opens a side's end and offers its ENQ.
fn begin<K: Check, O: Medium>(
    side: Side,
    settings: Settings,
    out: &mut O,
    place: &mut [u8; LONGEST],
) -> (End<K>, LineReport)
    ensures made { model result.0 ≡ (end_opened (side_number side) settings).next }
    ensures told { report_said result.1 ≡ reported None (telling K.Check.meaning (end_opened (side_number side) settings)) }
    ensures placed { place.new ≡ written_over (burst K.Check.meaning (end_opened (side_number side) settings).sent) place.old }
    ensures offered { Offers (O.Medium.bursts out.old) (burst_of K.Check.meaning (end_opened (side_number side) settings).sent) result.1.offer (O.Medium.bursts out.new) }
    ensures once { OfferedOnce O.Medium (burst_of K.Check.meaning (end_opened (side_number side) settings).sent) result.1.offer out.old out.new }
{
    let (end, report) = End::open(side.number(), settings, place);
    (end, pass_on(report, None, out, place))
}

impl<K: Check> Line<K> {
    /// Opens a line over two media with nothing under way: each end sends ENQ, west's before east's. Refused with 8 to 13 by
    /// west's frame and then by east's, and with 28 where a medium has bursts under way; then nothing is offered or written.
    pub fn open<E: Medium, W: Medium>(
        west_frame: &[u8],
        east_frame: &[u8],
        eastward: &mut E,
        westward: &mut W,
        west_place: &mut [u8; LONGEST],
        east_place: &mut [u8; LONGEST],
    ) -> Result<Opened<K>, Refusal>
        ensures west { SideOpened K.Check E.Medium West (opening west_frame.now east_frame.now (E.Medium.bursts eastward.old) (W.Medium.bursts westward.old)) result eastward.old eastward.new west_place.old west_place.new }
        ensures east { SideOpened K.Check W.Medium East (opening west_frame.now east_frame.now (E.Medium.bursts eastward.old) (W.Medium.bursts westward.old)) result westward.old westward.new east_place.old east_place.new }
        ensures reached { IfOk result (λ x. Reached K.Check.LEN K.Check.meaning (opened west_frame.now east_frame.now x.west.offer x.east.offer) (line_of x.line (E.Medium.bursts eastward.new) (W.Medium.bursts westward.new))) }
        ensures keeps { IfOk result (λ x. Kept K.Check.LEN K.Check.meaning (opened west_frame.now east_frame.now x.west.offer x.east.offer) (line_of x.line (E.Medium.bursts eastward.new) (W.Medium.bursts westward.new))) }
    {
        let (west_settings, east_settings) = agree(west_frame, east_frame, eastward, westward)?;
        let (west_end, west) = begin(Side::West, west_settings, eastward, west_place);
        let (east_end, east) = begin(Side::East, east_settings, westward, east_place);
        Ok(Opened {
            line: Line {
                west: west_end,
                east: east_end,
            },
            west,
            east,
        })
    }
}
