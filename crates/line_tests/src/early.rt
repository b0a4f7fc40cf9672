//! A timeout asked for too early, over two queues with a free place each.
ghost use Rattle.std.specs.Prelude.{◌≡◌};
ghost use Rattle.packet.specs.Refusals.{answer, refused};
ghost use Rattle.settings.specs.Frame.{settings_of};
ghost use Rattle.station.specs.End.{seen};
ghost use Rattle.agreement.specs.Opening.{both};
ghost use Rattle.line.specs.Models.{said};

use line::{Line, LineReport};
use medium::LONGEST;
use medium::burst::Burst;
use medium::queue::QueueMedium;
use packet::checks::Check;
use packet::refusal::Refusal;

/// What a timeout at west answers right after the opening: 27, as west's ENQ is still under way. Only the frames can refuse the
/// opening.
pub fn timeout_at_once<K: Check>(
    west_frame: &[u8],
    east_frame: &[u8],
) -> Result<Result<LineReport, Refusal>, Refusal>
    ensures { answer said result ≡ seen (λ s. refused 27) (both (settings_of west_frame.now) (settings_of east_frame.now)) }
{
    let mut west_place = [0; LONGEST];
    let mut east_place = [0; LONGEST];
    let mut east_memory = [Burst::blank(); 1];
    let mut west_memory = [Burst::blank(); 1];
    let mut eastward = QueueMedium::over(&mut east_memory);
    let mut westward = QueueMedium::over(&mut west_memory);
    let mut opened = Line::<K>::open(
        west_frame,
        east_frame,
        &mut eastward,
        &mut westward,
        &mut west_place,
        &mut east_place,
    )?;
    Ok(
        opened
            .line
            .timeout(0, &mut eastward, &mut westward, &mut west_place),
    )
}
