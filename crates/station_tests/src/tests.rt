// Messages at the limits of their length, the frame that once changed settings while it was refused, and ends of a user's kinds.
use packet::checks::Check;
use packet::letter::Letter;
use packet::number::Number;
use packet::reader::read;
use packet::refusal::Refusal;
use packet::sum::Sum;
use packet::writer::write;
use packet_tests::kinds::{Five, Pair};
use primary::station::{State, Status};
use settings::values::Settings;
use station::end::End;
use station::report::{Holding, Report};
use std::process::Abort;

const FRAME: [u8; 9] = [0x01, 0x00, 0x06, 0x00, 0xc8, 0x01, 0x2c, 0x03, 0x08];

// The DATA period is 6001; ENQ period, M and R are others than in FRAME.
const BAD_FRAME: [u8; 9] = [0x01, 0x00, 0x06, 0x00, 0x64, 0x17, 0x71, 0x05, 0x04];

const RESET: [u8; 4] = [0x02, 0x52, 0x03, 0xd5];

// The number of the refusal, none where the call is not refused.
fn refused(r: Result<Report, Refusal>) -> Option<u8> {
    r.err().map(u8::from)
}

// What an end tells of itself.
#[derive(Clone, Copy, PartialEq, Eq)]
struct View {
    settings: Settings,
    status: Status,
    holding: Holding,
}

fn seen(end: &End<Sum>) -> View {
    View {
        settings: end.settings(),
        status: end.status(),
        holding: end.holding(),
    }
}

// The bad frame is refused with 11, and the end tells what it told before.
fn refuses(rt: &impl Abort, end: &mut End<Sum>, state: State) {
    let before = seen(end);
    assert_eq!(rt; before.status.state, state);
    assert_eq!(rt; end.change_settings(&BAD_FRAME).map_err(u8::from), Err(11));
    assert!(rt; before == seen(end));
}

// What an end of this kind sends for "OK" once RESET has arrived: letter and length, if it reads back as that message.
fn sent_for_ok<K: Check>() -> Option<(Letter, usize)> {
    let message: &[u8] = b"OK";
    let mut place = [0u8; 104];
    let mut burst = [0u8; 104];
    let length = write::<K>(b'R', &[], &mut burst).ok()?;
    let (mut end, _) = End::<K>::new(0, &FRAME, &mut place).ok()?;
    end.arrive(burst.get(..length)?, &mut place).ok()?;
    let sent = end.submit(message, &mut place).ok()?.sent?;
    let packet = read::<K>(place.get(..sent.length)?).ok()?;
    (packet.message() == Some(message)).then_some((packet.letter, sent.length))
}

#[test]
fn messages_of_1_to_96_bytes_pass(rt: HostRuntime) {
    let mut place = [0u8; 104];
    let text = [0x41u8; 97];
    let (mut end, _) = End::<Sum>::new(0, &FRAME, &mut place).expect(&rt, "FRAME is taken");
    assert_eq!(rt; refused(end.arrive(&RESET, &mut place)), None);
    assert_eq!(rt; refused(end.submit(&text[0..0], &mut place)), Some(16));
    assert_eq!(rt; refused(end.submit(&text, &mut place)), Some(16));
    assert_eq!(rt; refused(end.submit(&text[0..1], &mut place)), None);
    assert_eq!(rt; refused(end.submit(&text[0..96], &mut place)), None);
}

#[test]
fn refused_frame_changes_nothing_in_any_state(rt: HostRuntime) {
    let mut place = [0u8; 104];
    let (mut end, _) = End::<Sum>::new(0, &FRAME, &mut place).expect(&rt, "FRAME is taken");
    refuses(&rt, &mut end, State::Off);
    assert_eq!(rt; refused(end.arrive(&RESET, &mut place)), None);
    refuses(&rt, &mut end, State::Ready);
    assert_eq!(rt; refused(end.submit(b"OK", &mut place)), None);
    refuses(&rt, &mut end, State::Waiting);
    let _ = end.timeout(&mut place);
    refuses(&rt, &mut end, State::Asking);
}

#[test]
fn a_users_kinds_serve_an_end(rt: HostRuntime) {
    let data_0 = Letter::Data(Number::Zero);
    assert_eq!(rt; sent_for_ok::<Pair>(), Some((data_0, 7)));
    assert_eq!(rt; sent_for_ok::<Five>(), Some((data_0, 10)));
}
