// What a call on an end did, in print.
ghost use Rattle.std.specs.Prelude.{◌≡◌, take, Some, IfOk, string_bytes};
ghost use Rattle.std.specs.Option.{option_map, unwrap_or};
ghost use Rattle.packet.specs.Bytes.{byte_of};
ghost use Rattle.packet.specs.Refusals.{answer, gave};
ghost use Rattle.station.specs.Reports.{packet_sent, told};
ghost use Rattle.answers.specs.Lines.{text_or_none};
ghost use Rattle.end_answers.specs.Reports.{letter_text, started_text, placed_burst, sent_text, rest_text, told_line};

use answers::print::{OrNone, refused};
use notation::hex::Hex;
use packet::letter::Letter;
use packet::refusal::Refusal;
use primary::event::Timer;
use station::report::{Report, Sent};
use std::alloc::{AllocError, Global};
use std::fmt;

// The size of the place that a call is lent.
pub const PLACE: usize = 104;

// A timer that was started, and its period.
#[derive(Clone, Copy)]
struct Started(Timer, u16);

impl fmt::Display for Started {
    ghost output = { λ started. Some (started_text (started.0, started.1)) };

    fn fmt<W: fmt::Write>(&self, f: &mut fmt::Formatter<W>) -> fmt::Result {
        write!(f, "{}:{}", self.0, self.1)
    }
}

// The letter that was sent, if any. A type of its own, as the timer below: the text of an OrNone is an Option in clauses, and
// the proof of a format over it goes by its cases.
#[derive(Clone, Copy)]
struct SentLetter(Option<Letter>);

impl fmt::Display for SentLetter {
    ghost output = { λ sent. Some (letter_text (option_map byte_of sent.0)) };

    fn fmt<W: fmt::Write>(&self, f: &mut fmt::Formatter<W>) -> fmt::Result {
        OrNone(self.0).fmt(f)
    }
}

// The timer that was started, if any.
#[derive(Clone, Copy)]
struct StartedTimer(Option<Started>);

impl fmt::Display for StartedTimer {
    ghost output = { λ timer. Some (text_or_none started_text (option_map (λ t. (t.0, t.1)) timer.0)) };

    fn fmt<W: fmt::Write>(&self, f: &mut fmt::Formatter<W>) -> fmt::Result {
        OrNone(self.0).fmt(f)
    }
}

fn letter_of(sent: Option<Sent>) -> SentLetter
    ensures { option_map byte_of result.0 ≡ option_map (λ p. p.0) (option_map packet_sent sent) }
{
    SentLetter(sent.map(|sent| sent.letter))
}

fn timer_of(timer: Option<(Timer, u16)>) -> StartedTimer
    ensures { option_map (λ t. (t.0, t.1)) result.0 ≡ timer }
{
    StartedTimer(timer.map(|(timer, period)| Started(timer, period)))
}

// The burst that was sent, from the front of the place.
fn sent_burst<'a>(sent: Option<Sent>, place: &'a [u8; PLACE]) -> &'a [u8]
    ensures { result.now ≡ take (unwrap_or (option_map (λ p. p.1) (option_map packet_sent sent)) 0) place.now }
{
    let length = sent.map_or(0, |sent| sent.length);
    &place[..length.min(PLACE)]
}

// The packet that was sent, from the front of the place.
#[derive(Clone, Copy)]
pub struct PlacedPacket<'a> {
    pub report: Report,
    pub place: &'a [u8; PLACE],
}

impl<'a> fmt::Display for PlacedPacket<'a> {
    ghost output = { λ packet. Some (sent_text (told packet.report) (placed_burst (told packet.report) packet.place.now)) };

    fn fmt<W: fmt::Write>(&self, f: &mut fmt::Formatter<W>) -> fmt::Result {
        let letter = letter_of(self.report.sent);
        let burst = Hex::of(sent_burst(self.report.sent, self.place));
        write!(f, "sent={letter} burst={burst}")
    }
}

// The timer that was started, and the outcomes.
#[derive(Clone, Copy)]
pub struct TimerAndOutcomes(pub Report);

impl fmt::Display for TimerAndOutcomes {
    ghost output = { λ rest. Some (rest_text (told rest.0)) };

    fn fmt<W: fmt::Write>(&self, f: &mut fmt::Formatter<W>) -> fmt::Result {
        let timer = timer_of(self.0.timer);
        let tally = self.0.tally;
        write!(f, "timer={timer} outcomes={tally}")
    }
}

// A report behind a word, with the burst that lies at the front of the place.
fn report_line(
    heap: Global,
    word: &str,
    report: Report,
    place: &[u8; PLACE],
) -> Result<String, AllocError>
    ensures { IfOk result (λ s. string_bytes s ≡ told_line word.now (gave (told report)) place.now) }
{
    let packet = PlacedPacket { report, place };
    let rest = TimerAndOutcomes(report);
    format!(in heap; "{word}{packet} {rest}\n")
}

// What a call answered, behind a word where it is not refused. The call was lent the place.
pub fn reported(
    heap: Global,
    word: &str,
    res: Result<Report, Refusal>,
    place: &[u8; PLACE],
) -> Result<String, AllocError>
    ensures { IfOk result (λ s. string_bytes s ≡ told_line word.now (answer told res) place.now) }
{
    match res {
        Ok(report) => report_line(heap, word, report, place),
        Err(why) => refused(heap, why),
    }
}
