//! A call at one side: its end, the medium out of it and the medium toward it.
ghost use Rattle.std.specs.Prelude.{◌≡◌, [], length, None};
ghost use Rattle.std.specs.Option.{option_map};
ghost use Rattle.packet.specs.Bytes.{byte_of};
ghost use Rattle.packet.specs.Refusals.{answer};
ghost use Rattle.agreement.specs.Calls.{Submit, Expire, Arrive, ReadOut, Collect, Set, Offers, message_read};
ghost use Rattle.line.specs.Called.{Performed, Does};
ghost use Rattle.line.specs.Media.{OfferedOnce};
ghost use Rattle.line.specs.Models.{said, offer_told, read_told, collect_told, set_told};
ghost use Rattle.line.specs.Hearing.{hears, packet_of, written, letter_at};
ghost use Rattle.station.specs.End.{seen};
ghost use Rattle.station.specs.Models.{model};

use crate::report::LineReport;
use medium::class::Class;
use medium::{LONGEST, Medium};
use packet::checks::Check;
use packet::letter::Letter;
use packet::refusal::Refusal;
use primary::outcome::Outcome;
use station::end::End;
use station::report::Report;

pub(crate) fn submit<K: Check, O: Medium, I: Medium>(
    end: &mut End<K>,
    message: &[u8],
    out: &mut O,
    _into: &I,
    place: &mut [u8; LONGEST],
) -> Result<LineReport, Refusal>
    ensures { Performed K.Check O.Medium I.Medium (Submit message.now) (said result) (offer_told result) end.old end.new out.old out.new _into.now _into.now place.old place.new }
{
    let report = end.submit(message, place)?;
    Ok(pass_on(report, None, out, place))
}

/// A timeout is taken unless a command from the side or an answer toward it is under way.
pub(crate) fn expire<K: Check, O: Medium, I: Medium>(
    end: &mut End<K>,
    out: &mut O,
    into: &I,
    place: &mut [u8; LONGEST],
) -> Result<LineReport, Refusal>
    ensures { Performed K.Check O.Medium I.Medium Expire (said result) (offer_told result) end.old end.new out.old out.new into.now into.now place.old place.new }
{
    if out.holds(Class::Command) || into.holds(Class::Answer) {
        return Err(Refusal::StillUnderWay);
    }
    let report = end.timeout(place);
    Ok(pass_on(report, None, out, place))
}

/// The first burst toward the side is taken and handed to its end. The medium is asked first, so that nothing is taken of an
/// empty one.
pub(crate) fn arrive<K: Check, O: Medium, I: Medium>(
    end: &mut End<K>,
    out: &mut O,
    into: &mut I,
    place: &mut [u8; LONGEST],
) -> Result<LineReport, Refusal>
    ensures { Performed K.Check O.Medium I.Medium Arrive (said result) (offer_told result) end.old end.new out.old out.new into.old into.new place.old place.new }
{
    if into.count() == 0 {
        return Err(Refusal::NothingUnderWay);
    }
    let mut burst = [0; LONGEST];
    let length = into.take(&mut burst);
    hear(end, &burst[..length], out, place)
}

/// An end hears a burst.
fn hear<K: Check, O: Medium>(
    end: &mut End<K>,
    burst: &[u8],
    out: &mut O,
    place: &mut [u8; LONGEST],
) -> Result<LineReport, Refusal>
    ensures { Does K.Check O.Medium (hears burst.now end.old) (packet_of K.Check.meaning (hears burst.now end.old)) (said result) (offer_told result) end.old end.new out.old out.new place.old place.new }
{
    let report = end.arrive(burst, place)?;
    Ok(pass_on(report, letter_of(burst), out, place))
}

/// The operation letter of a burst, if it has one.
fn letter_of(burst: &[u8]) -> Option<Letter>
    ensures { option_map byte_of result ≡ letter_at burst.now }
{
    Letter::try_from(*burst.get(1)?).ok()
}

/// Takes the oldest delivery, copies it and gives it back.
pub(crate) fn read_out<K: Check, O: Medium, I: Medium>(
    end: &mut End<K>,
    _out: &O,
    _into: &I,
    place: &mut [u8],
) -> Result<usize, Refusal>
    ensures call { Performed K.Check O.Medium I.Medium (ReadOut (length place.old)) (read_told result place.new) None end.old end.new _out.now _out.now _into.now _into.now place.old place.new }
    ensures length { answer (λ n. n) result ≡ seen length (message_read (length place.old) (model end.old)) }
{
    let (length, slip) = end.take(place)?;
    end.give_back(slip).unwrap();
    Ok(length)
}

pub(crate) fn collect<K: Check, O: Medium, I: Medium>(
    end: &mut End<K>,
    _out: &O,
    _into: &I,
) -> Result<Outcome, Refusal>
    ensures { Performed K.Check O.Medium I.Medium Collect (collect_told result) None end.old end.new _out.now _out.now _into.now _into.now [] [] }
{
    end.collect()
}

pub(crate) fn change_settings<K: Check, O: Medium, I: Medium>(
    end: &mut End<K>,
    _out: &O,
    _into: &I,
    frame: &[u8],
) -> Result<(), Refusal>
    ensures { Performed K.Check O.Medium I.Medium (Set frame.now) (set_told result) None end.old end.new _out.now _out.now _into.now _into.now [] [] }
{
    end.change_settings(frame)
}

/// Offers the packet that was sent, if one was.
pub(crate) fn pass_on<O: Medium>(
    report: Report,
    heard: Option<Letter>,
    out: &mut O,
    place: &[u8; LONGEST],
) -> LineReport
    ensures end { result.end ≡ report }
    ensures heard { result.heard ≡ heard }
    ensures offered { Offers (O.Medium.bursts out.old) (written report.sent place.now) result.offer (O.Medium.bursts out.new) }
    ensures once { OfferedOnce O.Medium (written report.sent place.now) result.offer out.old out.new }
{
    let offer = match report.sent {
        Some(sent) => Some(out.offer(&place[..sent.length])),
        None => None,
    };
    LineReport {
        end: report,
        offer,
        heard,
    }
}
