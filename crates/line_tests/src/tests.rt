//! Short days on a line, told by what each call answers. The expected values come from the tables of docs/PROTOCOL.md.
use crate::early::timeout_at_once;
use crate::led;
use Call::{Arrive, Collect, ReadOut, Set, Submit, Timeout};
use Offer::{Spoilt, Whole};
use Said::{Answered, Collected, Heard, Nothing, Read, Refused, Sent};
use line::{Line, LineReport};
use medium::burst::Burst;
use medium::offer::Offer;
use medium::queue::QueueMedium;
use medium::{LONGEST, Medium};
use noise::lossy::LossyMedium;
use noise::noisy::NoisyMedium;
use packet::checks::Check;
use packet::letter::Letter;
use packet::number::Number;
use packet::refusal::Refusal;
use packet::sum::Sum;
use packet_tests::kinds::{Five, Pair};
use packing::packed::PackedMedium;
use primary::outcome::Outcome;
use std::process::Abort;
use stranger_media::altering::AlteringMedium;
use stranger_media::alternating::AlternatingMedium;
use stranger_media::losing::LosingMedium;

const WEST: u8 = 0;

const EAST: u8 = 1;

/// M = 3 and R = 8.
const FRAME: [u8; 9] = [0x01, 0x00, 0x06, 0x00, 0xc8, 0x01, 0x2c, 0x03, 0x08];

/// M = 1 and R = 8.
const ONE_ATTEMPT: [u8; 9] = [0x01, 0x00, 0x06, 0x00, 0xc8, 0x01, 0x2c, 0x01, 0x08];

const OK: [u8; 2] = *b"OK";

const DATA: Letter = Letter::Data(Number::Zero);

const ACK: Letter = Letter::Ack(Number::Zero);

/// A call at the side of this number.
#[derive(Clone, Copy)]
enum Call {
    Submit(u8),
    Timeout(u8),
    Arrive(u8),
    ReadOut(u8),
    Collect(u8),
    Set(u8),
}

/// What a call answered.
#[derive(Clone, Copy, Debug, PartialEq, Eq)]
enum Said {
    Heard(Letter),
    Sent(Letter, Offer),
    Answered(Letter, Letter, Offer),
    Nothing,
    Read([u8; 2]),
    ReadOther,
    Collected(Outcome),
    Set,
    Refused(u8),
}

fn told(answer: Result<LineReport, Refusal>) -> Said {
    let report = match answer {
        Ok(report) => report,
        Err(refusal) => return Refused(u8::from(refusal)),
    };
    let sent = report.end.sent.map(|sent| sent.letter);
    match (report.heard, sent, report.offer) {
        (None, Some(letter), Some(offer)) => Sent(letter, offer),
        (Some(heard), Some(letter), Some(offer)) => Answered(heard, letter, offer),
        (Some(heard), _, _) => Heard(heard),
        _ => Nothing,
    }
}

/// What was read out into the place.
fn read(answer: Result<usize, Refusal>, place: &[u8; 96]) -> Said {
    match answer {
        Ok(length) => match place.get(..length) {
            Some([a, b]) => Read([*a, *b]),
            _ => Said::ReadOther,
        },
        Err(refusal) => Refused(u8::from(refusal)),
    }
}

fn say<K: Check, E: Medium, W: Medium>(
    line: &mut Line<K>,
    call: Call,
    eastward: &mut E,
    westward: &mut W,
) -> Said {
    let mut place = [0u8; LONGEST];
    let mut copy = [0u8; 96];
    match call {
        Submit(side) => told(line.submit(side, &OK, eastward, westward, &mut place)),
        Timeout(side) => told(line.timeout(side, eastward, westward, &mut place)),
        Arrive(side) => told(line.arrive(side, eastward, westward, &mut place)),
        ReadOut(side) => {
            let length = line.read_out(side, eastward, westward, &mut copy);
            read(length, &copy)
        }
        Collect(side) => match line.collect(side, eastward, westward) {
            Ok(outcome) => Collected(outcome),
            Err(refusal) => Refused(u8::from(refusal)),
        },
        Set(side) => match line.change_settings(side, eastward, westward, &FRAME) {
            Ok(()) => Said::Set,
            Err(refusal) => Refused(u8::from(refusal)),
        },
    }
}

/// Opens a line and leads it through the calls of a day.
fn lead<K: Check, E: Medium, W: Medium>(
    rt: &impl Abort,
    frame: &[u8],
    eastward: &mut E,
    westward: &mut W,
    day: &[(Call, Said)],
) {
    let mut west_place = [0u8; LONGEST];
    let mut east_place = [0u8; LONGEST];
    let opened = Line::<K>::open(
        frame,
        frame,
        eastward,
        westward,
        &mut west_place,
        &mut east_place,
    );
    let Ok(mut opened) = opened else {
        panic!(rt; "the line is not opened");
    };
    for (call, said) in day {
        assert_eq!(rt; say(&mut opened.line, *call, eastward, westward), *said);
    }
}

/// Nothing is lost: the day of a message from west to east, with what is refused on the way.
fn clean_day<K: Check, E: Medium, W: Medium>(rt: &impl Abort, eastward: &mut E, westward: &mut W) {
    let day = [
        (Submit(WEST), Refused(18)),
        (Timeout(WEST), Refused(27)),
        (Arrive(2), Refused(25)),
        (Arrive(EAST), Answered(Letter::Enq, Letter::Reset, Whole)),
        (Arrive(WEST), Answered(Letter::Enq, Letter::Reset, Whole)),
        (Arrive(WEST), Heard(Letter::Reset)),
        (Timeout(WEST), Nothing),
        (Submit(WEST), Sent(DATA, Whole)),
        (Set(WEST), Refused(14)),
        (Arrive(EAST), Heard(Letter::Reset)),
        (Arrive(EAST), Answered(DATA, ACK, Whole)),
        (Timeout(WEST), Refused(27)),
        (Arrive(WEST), Heard(ACK)),
        (Arrive(WEST), Refused(26)),
        (Set(WEST), Said::Set),
        (ReadOut(EAST), Read(OK)),
        (ReadOut(EAST), Refused(23)),
        (Collect(WEST), Collected(Outcome::Arrived)),
        (Collect(WEST), Refused(20)),
    ];
    lead::<K, _, _>(rt, &FRAME, eastward, westward, &day);
}

/// The medium westward alters its third burst, the ACK, which ENQ asks for again.
fn noisy_day<K: Check, E: Medium, W: Medium>(rt: &impl Abort, eastward: &mut E, westward: &mut W) {
    let day = [
        (Arrive(EAST), Answered(Letter::Enq, Letter::Reset, Whole)),
        (Arrive(WEST), Answered(Letter::Enq, Letter::Reset, Whole)),
        (Arrive(WEST), Heard(Letter::Reset)),
        (Arrive(EAST), Heard(Letter::Reset)),
        (Submit(WEST), Sent(DATA, Whole)),
        (Arrive(EAST), Answered(DATA, ACK, Spoilt)),
        (Arrive(WEST), Refused(7)),
        (Timeout(WEST), Sent(Letter::Enq, Whole)),
        (Arrive(EAST), Answered(Letter::Enq, ACK, Whole)),
        (Arrive(WEST), Heard(ACK)),
        (ReadOut(EAST), Read(OK)),
        (ReadOut(EAST), Refused(23)),
        (Collect(WEST), Collected(Outcome::Arrived)),
    ];
    lead::<K, _, _>(rt, &FRAME, eastward, westward, &day);
}

/// The medium eastward loses its third burst, DATA, which is sent again once RESET answers ENQ.
fn lossy_day<K: Check, E: Medium, W: Medium>(rt: &impl Abort, eastward: &mut E, westward: &mut W) {
    let day = [
        (Arrive(EAST), Answered(Letter::Enq, Letter::Reset, Whole)),
        (Arrive(WEST), Answered(Letter::Enq, Letter::Reset, Whole)),
        (Arrive(WEST), Heard(Letter::Reset)),
        (Arrive(EAST), Heard(Letter::Reset)),
        (Submit(WEST), Sent(DATA, Spoilt)),
        (Arrive(EAST), Refused(26)),
        (Timeout(WEST), Sent(Letter::Enq, Whole)),
        (Arrive(EAST), Answered(Letter::Enq, Letter::Reset, Whole)),
        (Arrive(WEST), Answered(Letter::Reset, DATA, Whole)),
        (Arrive(EAST), Answered(DATA, ACK, Whole)),
        (Arrive(WEST), Heard(ACK)),
        (ReadOut(EAST), Read(OK)),
        (ReadOut(EAST), Refused(23)),
        (Collect(WEST), Collected(Outcome::Arrived)),
    ];
    lead::<K, _, _>(rt, &FRAME, eastward, westward, &day);
}

/// A day of each pair of media, by a kind of check.
fn days<K: Check>(rt: &impl Abort) {
    let mut memory = [Burst::blank(); 4];
    let mut other = [Burst::blank(); 4];
    let mut bytes = [0u8; 64];
    clean_day::<K, _, _>(
        rt,
        &mut QueueMedium::over(&mut memory),
        &mut QueueMedium::over(&mut other),
    );
    noisy_day::<K, _, _>(
        rt,
        &mut PackedMedium::over(&mut bytes),
        &mut NoisyMedium::over(&mut memory, 0x4000_0000),
    );
    lossy_day::<K, _, _>(
        rt,
        &mut LossyMedium::over(QueueMedium::over(&mut memory), 0x4000_0000),
        &mut QueueMedium::over(&mut other),
    );
}

#[test]
fn days_by_one_check_byte(rt: HostRuntime) {
    days::<Sum>(&rt);
}

#[test]
fn days_by_two_check_bytes(rt: HostRuntime) {
    days::<Pair>(&rt);
}

#[test]
fn days_by_five_check_bytes(rt: HostRuntime) {
    days::<Five>(&rt);
}

/// East stored the message, but its ACK is lost twice: west gives up after M + 1 timeouts, and east reads out all the same.
#[test]
fn a_message_given_up_is_read_out(rt: HostRuntime) {
    let mut memory = [Burst::blank(); 4];
    let mut other = [Burst::blank(); 4];
    let day = [
        (Arrive(EAST), Answered(Letter::Enq, Letter::Reset, Whole)),
        (Arrive(WEST), Answered(Letter::Enq, Letter::Reset, Whole)),
        (Arrive(WEST), Heard(Letter::Reset)),
        (Submit(WEST), Sent(DATA, Whole)),
        (Arrive(EAST), Heard(Letter::Reset)),
        (Arrive(EAST), Answered(DATA, ACK, Spoilt)),
        (Arrive(WEST), Refused(26)),
        (Timeout(WEST), Sent(Letter::Enq, Whole)),
        (Arrive(EAST), Answered(Letter::Enq, ACK, Spoilt)),
        (Timeout(WEST), Sent(Letter::Enq, Whole)),
        (Collect(WEST), Collected(Outcome::GivenUp)),
        (Submit(WEST), Refused(18)),
        (ReadOut(EAST), Read(OK)),
    ];
    let mut eastward = QueueMedium::over(&mut memory);
    let mut westward = LossyMedium::over(QueueMedium::over(&mut other), 0x6000_0000);
    lead::<Sum, _, _>(&rt, &ONE_ATTEMPT, &mut eastward, &mut westward, &day);
}

/// West's second burst, RESET, is lost: east stays Off and receives all the same.
#[test]
fn every_other_burst_is_lost(rt: HostRuntime) {
    let mut memory = [Burst::blank(); 4];
    let mut other = [Burst::blank(); 4];
    let day = [
        (Arrive(EAST), Answered(Letter::Enq, Letter::Reset, Whole)),
        (Arrive(WEST), Answered(Letter::Enq, Letter::Reset, Spoilt)),
        (Arrive(WEST), Heard(Letter::Reset)),
        (Arrive(EAST), Refused(26)),
        (Submit(WEST), Sent(DATA, Whole)),
        (Arrive(EAST), Answered(DATA, ACK, Whole)),
        (Submit(EAST), Refused(18)),
        (Timeout(EAST), Sent(Letter::Enq, Whole)),
        (Arrive(WEST), Heard(ACK)),
        (Arrive(WEST), Answered(Letter::Enq, Letter::Reset, Spoilt)),
        (ReadOut(EAST), Read(OK)),
    ];
    let mut eastward = AlternatingMedium::over(QueueMedium::over(&mut memory));
    let mut westward = QueueMedium::over(&mut other);
    lead::<Sum, _, _>(&rt, &FRAME, &mut eastward, &mut westward, &day);
}

/// Eastward every burst's STX becomes 03, and westward nothing is ever under way.
#[test]
fn nothing_gets_through(rt: HostRuntime) {
    let mut memory = [Burst::blank(); 4];
    let day = [
        (Timeout(WEST), Refused(27)),
        (Arrive(EAST), Refused(2)),
        (Arrive(EAST), Refused(26)),
        (Arrive(WEST), Refused(26)),
        (Timeout(WEST), Sent(Letter::Enq, Spoilt)),
        (Timeout(EAST), Sent(Letter::Enq, Spoilt)),
        (Submit(EAST), Refused(18)),
        (ReadOut(EAST), Refused(23)),
    ];
    let mut eastward = AlteringMedium::over(&mut memory);
    let mut westward = LosingMedium;
    lead::<Sum, _, _>(&rt, &FRAME, &mut eastward, &mut westward, &day);
}

/// The first opening leaves an ENQ under way on each medium.
#[test]
fn media_in_use_give_28(rt: HostRuntime) {
    let mut memory = [Burst::blank(); 4];
    let mut other = [Burst::blank(); 4];
    let mut eastward = QueueMedium::over(&mut memory);
    let mut westward = QueueMedium::over(&mut other);
    let mut place = [0xeeu8; LONGEST];
    let mut east_place = [0xeeu8; LONGEST];
    for want in [None, Some(28)] {
        let opened = Line::<Sum>::open(
            &FRAME,
            &FRAME,
            &mut eastward,
            &mut westward,
            &mut place,
            &mut east_place,
        );
        assert_eq!(rt; opened.err().map(u8::from), want);
        assert_eq!(rt; eastward.count(), 1);
    }
}

/// A read-out needs a place of 96 bytes, whatever is held.
#[test]
fn a_short_place_gives_21(rt: HostRuntime) {
    let mut eastward = LosingMedium;
    let mut westward = LosingMedium;
    let mut place = [0xeeu8; LONGEST];
    let mut east_place = [0xeeu8; LONGEST];
    let opened = Line::<Sum>::open(
        &FRAME,
        &FRAME,
        &mut eastward,
        &mut westward,
        &mut place,
        &mut east_place,
    );
    let Ok(mut opened) = opened else {
        panic!(rt; "the line is not opened");
    };
    let mut copy = [0xeeu8; 95];
    let read = opened.line.read_out(1, &eastward, &westward, &mut copy);
    assert_eq!(rt; read.map_err(u8::from), Err(21));
    assert_eq!(rt; copy, [0xeeu8; 95]);
}

/// The timeout is asked for too early; and a message is read out.
#[test]
fn what_is_proved_runs(rt: HostRuntime) {
    let early = timeout_at_once::<Pair>(&FRAME, &FRAME).map(told);
    assert_eq!(rt; early.map_err(u8::from), Ok(Refused(27)));
    let mut memory = [Burst::blank(); 4];
    let mut other = [Burst::blank(); 4];
    let mut eastward = QueueMedium::over(&mut memory);
    let mut westward = QueueMedium::over(&mut other);
    let mut copy = [0; 96];
    let led = led::lead::<Five, _, _>(&FRAME, &FRAME, &OK, &mut eastward, &mut westward, &mut copy);
    let Ok(led) = led else {
        panic!(rt; "the line is not opened");
    };
    assert_eq!(rt; told(led.submitted), Sent(DATA, Whole));
    assert_eq!(rt; read(led.read, &copy), Read(OK));
}
