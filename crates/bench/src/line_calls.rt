// Calls at a side of an open line of any kind, and what is printed for them.
ghost use Rattle.std.specs.Prelude.{◌≡◌, length, IfOk, string_bytes};
ghost use Rattle.std.specs.Option.{option_map};
ghost use Rattle.station.specs.Models.{model};
ghost use Rattle.agreement.specs.declared.sides.Side.TheVariants.{West, East};
ghost use Rattle.agreement.specs.Line.{side_answer};
ghost use Rattle.agreement.specs.Calls.{Submit, Expire, Arrive, ReadOut, Collect, Set, burst_of};
ghost use Rattle.agreement.specs.Opening.{sent_at_opening};
ghost use Rattle.bench.specs.Joined.{after_call, passed};
ghost use Rattle.bench.specs.LineAnswers.{printed_call, state_at};
ghost use Rattle.bench.specs.LineModels.{medium_of, ends_of, open_of, opening_over};
ghost use Rattle.bench.specs.LineRuns.{opening_line, ends_opened};

use crate::joined::LineMedia;
use crate::line_answers::{PlacedReport, message, opened, reported};
use answers::print::refused;
use answers::values::FILL;
use end_answers::report::PLACE;
use line::{Line, Opened};
use packet::checks::Check;
use std::alloc::{AllocError, Global};

pub(crate) fn submit<K: Check>(
    heap: Global,
    line: &mut Line<K>,
    media: &mut LineMedia<'_, '_>,
    side: u8,
    message: &[u8],
) -> Result<String, AllocError>
    ensures printed { IfOk result (λ s. string_bytes s ≡ printed_call K.Check.LEN K.Check.meaning (side_answer side) (Submit message.now) (open_of line.old media.old)) }
    ensures after { open_of line.new media.new ≡ after_call K.Check.LEN K.Check.meaning (side_answer side) (Submit message.now) (open_of line.old media.old) }
{
    let mut place = [FILL; PLACE];
    let result = line.submit(
        side,
        message,
        &mut media.eastward,
        &mut media.westward,
        &mut place,
    );
    reported(heap, result, &place)
}

pub(crate) fn timeout<K: Check>(
    heap: Global,
    line: &mut Line<K>,
    media: &mut LineMedia<'_, '_>,
    side: u8,
) -> Result<String, AllocError>
    ensures printed { IfOk result (λ s. string_bytes s ≡ printed_call K.Check.LEN K.Check.meaning (side_answer side) Expire (open_of line.old media.old)) }
    ensures after { open_of line.new media.new ≡ after_call K.Check.LEN K.Check.meaning (side_answer side) Expire (open_of line.old media.old) }
{
    let mut place = [FILL; PLACE];
    let result = line.timeout(side, &mut media.eastward, &mut media.westward, &mut place);
    reported(heap, result, &place)
}

pub(crate) fn arrive<K: Check>(
    heap: Global,
    line: &mut Line<K>,
    media: &mut LineMedia<'_, '_>,
    side: u8,
) -> Result<String, AllocError>
    ensures printed { IfOk result (λ s. string_bytes s ≡ printed_call K.Check.LEN K.Check.meaning (side_answer side) Arrive (open_of line.old media.old)) }
    ensures after { open_of line.new media.new ≡ after_call K.Check.LEN K.Check.meaning (side_answer side) Arrive (open_of line.old media.old) }
{
    let mut place = [FILL; PLACE];
    let result = line.arrive(side, &mut media.eastward, &mut media.westward, &mut place);
    reported(heap, result, &place)
}

pub(crate) fn read<K: Check>(
    heap: Global,
    line: &mut Line<K>,
    media: &LineMedia<'_, '_>,
    side: u8,
    place: &mut [u8],
) -> Result<String, AllocError>
    ensures printed { IfOk result (λ s. string_bytes s ≡ printed_call K.Check.LEN K.Check.meaning (side_answer side) (ReadOut (length place.old)) (open_of line.old media.now)) }
    ensures after { open_of line.new media.now ≡ after_call K.Check.LEN K.Check.meaning (side_answer side) (ReadOut (length place.old)) (open_of line.old media.now) }
{
    match line.read_out(side, &media.eastward, &media.westward, place) {
        Ok(length) => message(heap, &place[..length]),
        Err(why) => refused(heap, why),
    }
}

pub(crate) fn collect<K: Check>(
    heap: Global,
    line: &mut Line<K>,
    media: &LineMedia<'_, '_>,
    side: u8,
) -> Result<String, AllocError>
    ensures printed { IfOk result (λ s. string_bytes s ≡ printed_call K.Check.LEN K.Check.meaning (side_answer side) Collect (open_of line.old media.now)) }
    ensures after { open_of line.new media.now ≡ after_call K.Check.LEN K.Check.meaning (side_answer side) Collect (open_of line.old media.now) }
{
    match line.collect(side, &media.eastward, &media.westward) {
        Ok(outcome) => {
            let number = u8::from(outcome);
            format!(in heap; "outcome={number}\n")
        }
        Err(why) => refused(heap, why),
    }
}

pub(crate) fn change_settings<K: Check>(
    heap: Global,
    line: &mut Line<K>,
    media: &LineMedia<'_, '_>,
    side: u8,
    frame: &[u8],
) -> Result<String, AllocError>
    ensures printed { IfOk result (λ s. string_bytes s ≡ printed_call K.Check.LEN K.Check.meaning (side_answer side) (Set frame.now) (open_of line.old media.now)) }
    ensures after { open_of line.new media.now ≡ after_call K.Check.LEN K.Check.meaning (side_answer side) (Set frame.now) (open_of line.old media.now) }
{
    match line.change_settings(side, &media.eastward, &media.westward, frame) {
        Ok(()) => String::from_str(heap, "set\n"),
        Err(why) => refused(heap, why),
    }
}

pub(crate) fn state<K: Check>(heap: Global, line: &Line<K>, side: u8) -> Result<String, AllocError>
    ensures { IfOk result (λ s. string_bytes s ≡ state_at (side_answer side) (model line.now.west) (model line.now.east)) }
{
    match line.end(side) {
        Ok(end) => end_answers::state::state(heap, end),
        Err(why) => refused(heap, why),
    }
}

// Opens a line over its media, unless it is refused.
pub(crate) fn open<K: Check>(
    heap: Global,
    media: &mut LineMedia<'_, '_>,
    west: &[u8],
    east: &[u8],
) -> (Option<Line<K>>, Result<String, AllocError>)
    ensures printed { IfOk result.1 (λ s. string_bytes s ≡ opening_line K.Check.meaning (opening_over west.now east.now media.old) (medium_of media.old.eastward) (medium_of media.old.westward)) }
    ensures ends { option_map ends_of result.0 ≡ ends_opened (opening_over west.now east.now media.old) }
    ensures eastward { medium_of media.new.eastward ≡ passed (burst_of K.Check.meaning (sent_at_opening West (opening_over west.now east.now media.old))) (medium_of media.old.eastward) }
    ensures westward { medium_of media.new.westward ≡ passed (burst_of K.Check.meaning (sent_at_opening East (opening_over west.now east.now media.old))) (medium_of media.old.westward) }
{
    let mut west_place = [FILL; PLACE];
    let mut east_place = [FILL; PLACE];
    match Line::<K>::open(
        west,
        east,
        &mut media.eastward,
        &mut media.westward,
        &mut west_place,
        &mut east_place,
    ) {
        Ok(Opened { line, west, east }) => {
            let west = PlacedReport {
                report: west,
                place: &west_place,
            };
            let east = PlacedReport {
                report: east,
                place: &east_place,
            };
            (Some(line), opened(heap, west, east))
        }
        Err(why) => (None, refused(heap, why)),
    }
}
