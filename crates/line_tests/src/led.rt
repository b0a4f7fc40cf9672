//! A line led through a list of calls, over any two media and by any kind of check.
ghost use Rattle.std.specs.Prelude.{◌≡◌, IfOk, None};
ghost use Rattle.packet.specs.Refusals.{answer};
ghost use Rattle.station.specs.End.{seen};
ghost use Rattle.station.specs.Reports.{telling};
ghost use Rattle.agreement.specs.Calls.{reported};
ghost use Rattle.agreement.specs.Opening.{opening};
ghost use Rattle.agreement.specs.Promise.{Kept};
ghost use Rattle.line.specs.Models.{line_of, report_said};
ghost use Rattle.line_tests.specs.Transcripts.{led_through};

use line::{Line, LineReport, Opened};
use medium::{LONGEST, Medium};
use packet::checks::Check;
use packet::refusal::Refusal;

/// The line, and what the opening and each of its calls answered, in their order. Each is named after what it is where the media
/// lose and alter nothing.
#[derive(Drop)]
pub struct Led<K: Check> {
    pub line: Line<K>,
    pub west: LineReport,
    pub east: LineReport,
    pub enq_at_east: Result<LineReport, Refusal>,
    pub enq_at_west: Result<LineReport, Refusal>,
    pub reset_at_west: Result<LineReport, Refusal>,
    pub submitted: Result<LineReport, Refusal>,
    pub reset_at_east: Result<LineReport, Refusal>,
    pub data_at_east: Result<LineReport, Refusal>,
    pub read: Result<usize, Refusal>,
}

/// Opens a line, brings both ends up, submits a message at west and reads out at east; refused exactly where the opening is. What
/// is promised of a line holds of just these calls, whatever they answered.
pub fn lead<K: Check, E: Medium, W: Medium>(
    west_frame: &[u8],
    east_frame: &[u8],
    message: &[u8],
    eastward: &mut E,
    westward: &mut W,
    copy: &mut [u8],
) -> Result<Led<K>, Refusal>
    ensures opened { answer (λ x. report_said x.west) result ≡ seen (λ d. reported None (telling K.Check.meaning d.0)) (opening west_frame.now east_frame.now (E.Medium.bursts eastward.old) (W.Medium.bursts westward.old)) }
    ensures kept { IfOk result (λ x. Kept K.Check.LEN K.Check.meaning (led_through west_frame.now east_frame.now message.now copy.old copy.new x) (line_of x.line (E.Medium.bursts eastward.new) (W.Medium.bursts westward.new))) }
{
    let mut place = [0; LONGEST];
    let mut other = [0; LONGEST];
    let Opened {
        mut line,
        west,
        east,
    } = Line::<K>::open(
        west_frame, east_frame, eastward, westward, &mut place, &mut other,
    )?;
    let enq_at_east = line.arrive(1, eastward, westward, &mut place);
    let enq_at_west = line.arrive(0, eastward, westward, &mut place);
    let reset_at_west = line.arrive(0, eastward, westward, &mut place);
    let submitted = line.submit(0, message, eastward, westward, &mut place);
    let reset_at_east = line.arrive(1, eastward, westward, &mut place);
    let data_at_east = line.arrive(1, eastward, westward, &mut place);
    let read = line.read_out(1, eastward, westward, copy);
    Ok(Led {
        line,
        west,
        east,
        enq_at_east,
        enq_at_west,
        reset_at_west,
        submitted,
        reset_at_east,
        data_at_east,
        read,
    })
}
