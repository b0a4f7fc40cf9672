// What an end sends and hears. `unchanged` speaks of a call and not of a value, so it stands at each.
ghost use Rattle.std.specs.Prelude.{◌≡◌, ◌-◌, true, ◌++◌, length, drop, OnErr, slice_index};
ghost use Rattle.packet.specs.Bytes.{byte_of};
ghost use Rattle.packet.specs.Format.{packet};
ghost use Rattle.packet.specs.Letters.{fits, allowed};
ghost use Rattle.packet.specs.Packets.{told as packet_told};
ghost use Rattle.packet.specs.Refusals.{answer, gave};
ghost use Rattle.primary.specs.Model.{did, heard};
ghost use Rattle.secondary.specs.Station.{model as secondary_model};
ghost use Rattle.station.specs.End.{by_primary, by_secondary, answer_parts, period, burst, written_over, hears, submission, timeout, enq_heard, data_heard, dispatched, arrival, left_by, placed_by, seen};
ghost use Rattle.station.specs.Answerable.{Answerable};
ghost use Rattle.station.specs.Models.{model};
ghost use Rattle.station.specs.Reports.{told, telling, packet_sent};
ghost use Rattle.station.specs.Waits.{InTime};

use crate::end::End;
use crate::report::{Report, Sent};
use packet::checks::Check;
use packet::letter::Letter;
use packet::number::Number;
use packet::reader::{Packet, read};
use packet::refusal::Refusal;
use packet::writer::write;
use primary::event::{Command, Event, Step, Timer};
use secondary::reply::Answer;
use settings::values::Settings;

// Writes a packet that can be written to the front of `place`.
fn send<K: Check>(letter: Letter, field: &[u8], place: &mut [u8; 104]) -> Sent
    requires { (fits (byte_of letter) (length field.now) ≡ true) × (allowed (byte_of letter) field.now ≡ true) }
    ensures value { packet_sent result ≡ (byte_of letter, length (packet K.Check.meaning (byte_of letter) field.now)) }
    ensures after { place.new ≡ packet K.Check.meaning (byte_of letter) field.now ++ drop result.length place.old }
{
    let length = write::<K>(letter.into(), field, place).unwrap();
    Sent { letter, length }
}

// The period of a timer as set now.
fn period(settings: &Settings, timer: Timer) -> u16
    ensures { result ≡ period settings.now timer }
{
    match timer {
        Timer::Enq => settings.enq_period,
        Timer::Data => settings.data_period,
    }
}

// The credit in the field of an ACK; 0 where there is none, as the definition reads it: no ACK that is read lacks it.
fn credit_in(field: &[u8]) -> u8
    ensures { result ≡ slice_index field.now 0 - 0x30 }
{
    field
        .first()
        .map_or(0, |credit| credit.saturating_sub(0x30))
}

impl<K: Check> End<K> {
    // Sends the command of a step, and tells of it.
    pub(crate) fn command(&self, step: Step, place: &mut [u8; 104]) -> Report
        ensures value { told result ≡ telling K.Check.meaning (by_primary (model self.now) (did self.now.primary step)) }
        ensures placed { place.new ≡ written_over (burst K.Check.meaning (by_primary (model self.now) (did self.now.primary step)).sent) place.old }
    {
        let sent = match (step.sent, self.primary.current()) {
            (Some(Command::Enq), _) => Some(send::<K>(Letter::Enq, &[], place)),
            (Some(Command::Data(number)), Some(message)) => {
                Some(send::<K>(Letter::Data(number), message, place))
            }
            _ => None,
        };
        Report {
            sent,
            timer: step
                .timer
                .map(|timer| (timer, period(&self.settings, timer))),
            tally: step.tally,
        }
    }

    // The primary station hears something.
    #[tactic(auto, using(crate::proofs::Same::primary_alone))]
    fn hear(&mut self, event: Event<'_>, place: &mut [u8; 104]) -> Result<Report, Refusal>
        ensures value { answer told result ≡ seen (telling K.Check.meaning) (hears (model self.old) (heard event.entry)) }
        ensures after { model self.new ≡ left_by (hears (model self.old) (heard event.entry)) (model self.old) }
        ensures placed { place.new ≡ placed_by K.Check.meaning (hears (model self.old) (heard event.entry)) place.old }
        ensures unchanged { OnErr result (self.new ≡ self.old) }
    {
        let step = self.primary.step(event, self.settings.attempt_limit)?;
        Ok(self.command(step, place))
    }

    // Sends an answer of the secondary station, and tells of it.
    fn respond(&self, answer: Option<Answer>, place: &mut [u8; 104]) -> Report
        requires { Answerable answer }
        ensures value { told result ≡ telling K.Check.meaning (by_secondary (model self.now) (secondary_model self.now.secondary) answer) }
        ensures placed { place.new ≡ written_over (burst K.Check.meaning (answer_parts answer)) place.old }
    {
        let Some(answer) = answer else {
            return Report::default();
        };
        let sent = match answer {
            Answer::Reset => send::<K>(Letter::Reset, &[], place),
            Answer::Ack(number, credit) => {
                send::<K>(Letter::Ack(number), &[0x30 + credit], place)
            }
        };
        Report {
            sent: Some(sent),
            ..Report::default()
        }
    }

    // A message to send.
    #[tactic(auto, using(crate::proofs::Waiting::in_time))]
    pub fn submit(&mut self, message: &[u8], place: &mut [u8; 104]) -> Result<Report, Refusal>
        ensures value { answer told result ≡ seen (telling K.Check.meaning) (submission (model self.old) message.now) }
        ensures after { model self.new ≡ left_by (submission (model self.old) message.now) (model self.old) }
        ensures placed { place.new ≡ placed_by K.Check.meaning (submission (model self.old) message.now) place.old }
        ensures unchanged { OnErr result (self.new ≡ self.old) }
        ensures in_time { InTime K.Check.LEN K.Check.meaning (model self.new) }
    {
        self.hear(Event::Submission(message), place)
    }

    // No answer came in time. This is never refused.
    #[tactic(auto, using(crate::proofs::Waiting::in_time))]
    pub fn timeout(&mut self, place: &mut [u8; 104]) -> Report
        ensures value { gave (told result) ≡ seen (telling K.Check.meaning) (timeout (model self.old)) }
        ensures after { model self.new ≡ left_by (timeout (model self.old)) (model self.old) }
        ensures placed { place.new ≡ placed_by K.Check.meaning (timeout (model self.old)) place.old }
        ensures in_time { InTime K.Check.LEN K.Check.meaning (model self.new) }
    {
        self.hear(Event::Timeout, place).unwrap()
    }

    // ENQ arrived.
    fn hear_enq(&self, place: &mut [u8; 104]) -> Report
        ensures value { gave (told result) ≡ seen (telling K.Check.meaning) (enq_heard (model self.now)) }
        ensures placed { place.new ≡ placed_by K.Check.meaning (enq_heard (model self.now)) place.old }
    {
        let answer = self.secondary.enq(self.settings.receive_limit);
        self.respond(answer, place)
    }

    // DATA arrived.
    #[tactic(auto, using(crate::proofs::Same::secondary_alone))]
    fn hear_data(
        &mut self,
        number: Number,
        message: &[u8],
        place: &mut [u8; 104],
    ) -> Result<Report, Refusal>
        ensures value { answer told result ≡ seen (telling K.Check.meaning) (data_heard (model self.old) number message.now) }
        ensures after { model self.new ≡ left_by (data_heard (model self.old) number message.now) (model self.old) }
        ensures placed { place.new ≡ placed_by K.Check.meaning (data_heard (model self.old) number message.now) place.old }
        ensures unchanged { OnErr result (self.new ≡ self.old) }
    {
        let limit = self.settings.receive_limit;
        let answer = self.secondary.data(number, message, limit)?;
        Ok(self.respond(answer, place))
    }

    // Hands a packet that arrived to the station that it is for.
    #[tactic(auto, using(crate::proofs::Hearing::data_goes, crate::proofs::Hearing::ack_goes))]
    fn dispatch(&mut self, packet: Packet<'_>, place: &mut [u8; 104]) -> Result<Report, Refusal>
        ensures value { answer told result ≡ seen (telling K.Check.meaning) (dispatched (model self.old) (packet_told packet.entry)) }
        ensures after { model self.new ≡ left_by (dispatched (model self.old) (packet_told packet.entry)) (model self.old) }
        ensures placed { place.new ≡ placed_by K.Check.meaning (dispatched (model self.old) (packet_told packet.entry)) place.old }
        ensures unchanged { OnErr result (self.new ≡ self.old) }
    {
        match packet.letter {
            Letter::Enq => Ok(self.hear_enq(place)),
            Letter::Data(number) => self.hear_data(number, packet.field, place),
            Letter::Ack(number) => self.hear(Event::Ack(number, credit_in(packet.field)), place),
            Letter::Reset => self.hear(Event::Reset, place),
        }
    }

    // A burst arrived: refused with 1 to 7, or heard.
    #[tactic(auto, using(crate::proofs::Waiting::in_time))]
    pub fn arrive(&mut self, burst: &[u8], place: &mut [u8; 104]) -> Result<Report, Refusal>
        ensures value { answer told result ≡ seen (telling K.Check.meaning) (arrival K.Check.LEN K.Check.meaning (model self.old) burst.now) }
        ensures after { model self.new ≡ left_by (arrival K.Check.LEN K.Check.meaning (model self.old) burst.now) (model self.old) }
        ensures placed { place.new ≡ placed_by K.Check.meaning (arrival K.Check.LEN K.Check.meaning (model self.old) burst.now) place.old }
        ensures unchanged { OnErr result (self.new ≡ self.old) }
        ensures in_time { InTime K.Check.LEN K.Check.meaning (model self.new) }
    {
        let packet = read::<K>(burst)?;
        self.dispatch(packet, place)
    }
}
