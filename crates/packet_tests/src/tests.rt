// Worked packets that are run; the expected values are those of docs/PROTOCOL.md.
use super::kinds::*;
use packet::checks::Check;
use packet::letter::Letter;
use packet::number::Number;
use packet::reader::read;
use packet::refusal::Refusal;
use packet::sum::Sum;
use packet::writer::write;
use packet::xor::Xor;
use std::test::Fail;

// The number of the refusal, none where the burst is read.
fn refused<K: Check>(burst: &[u8]) -> Option<u8> {
    read::<K>(burst).err().map(u8::from)
}

// The length that is written, or the refusal's number.
fn written<K: Check>(letter: u8, field: &[u8], out: &mut [u8]) -> Result<usize, u8> {
    write::<K>(letter, field, out).map_err(u8::from)
}

// Whether the message of `n` bytes passes through writer and reader.
fn passes<K: Check>(n: usize) -> bool {
    let text = [0x7eu8; 97];
    let mut out = [0u8; 104];
    let Some(message) = text.get(..n) else {
        return false;
    };
    let Ok(end) = write::<K>(b'1', message, &mut out) else {
        return false;
    };
    let Some(burst) = out.get(..end) else {
        return false;
    };
    read::<K>(burst).is_ok_and(|packet| packet.place == 2 && packet.message() == Some(message))
}

#[test]
fn messages_of_1_and_96_bytes_pass(rt: HostRuntime) {
    assert!(rt; passes::<Sum>(1));
    assert!(rt; passes::<Sum>(96));
    assert!(rt; passes::<Xor>(96));
    assert!(rt; passes::<Pair>(1));
    assert!(rt; passes::<Five>(96));
    assert!(rt; !passes::<Sum>(0));
    assert!(rt; !passes::<Five>(97));
}

#[test]
fn bursts_of_wrong_length_give_1(rt: HostRuntime) {
    assert_eq!(rt; refused::<Sum>(&[0x02u8; 101]), Some(1));
    assert_eq!(rt; refused::<Sum>(&[0x02u8; 100]), Some(3));
    assert_eq!(rt; refused::<Sum>(&[]), Some(1));
    assert_eq!(rt; refused::<Pair>(&[0x02, 0x45, 0x03, 0xc8]), Some(1));
    assert_eq!(rt;
        refused::<Five>(&[0x02, 0x45, 0x03, 0xc8, 0xc6, 0xc6, 0xc8]),
        Some(1)
    );
}

#[test]
fn a_short_buffer_gives_29_and_is_untouched(rt: HostRuntime) {
    let mut out = [0xaau8; 5];
    assert_eq!(rt; written::<Sum>(b'0', b"OK", &mut out), Err(29));
    assert_eq!(rt; out, [0xaau8; 5]);
    let mut long = [0xaau8; 8];
    assert_eq!(rt; written::<Sum>(b'0', b"OK", &mut long), Ok(6));
    assert_eq!(rt; long, [0x02, 0x30, 0x4f, 0x4b, 0x03, 0xcd, 0xaa, 0xaa]);
}

#[test]
fn kinds_of_two_and_five_bytes(rt: HostRuntime) {
    let mut out = [0xaau8; 9];
    assert_eq!(rt; written::<Pair>(b'E', b"", &mut out), Ok(5));
    assert_eq!(rt; out, [0x02, 0x45, 0x03, 0xc8, 0xc6, 0xaa, 0xaa, 0xaa, 0xaa]);
    assert_eq!(rt; refused::<Pair>(&[0x02, 0x45, 0x03, 0xc8, 0xc6]), None);
    assert_eq!(rt; refused::<Pair>(&[0x02, 0x45, 0x03, 0xc8, 0xc7]), Some(7));
    assert_eq!(rt; written::<Five>(b'E', b"", &mut out), Ok(8));
    assert_eq!(rt; out, [0x02, 0x45, 0x03, 0xc8, 0xc6, 0xc6, 0xc8, 0xc8, 0xaa]);
    assert_eq!(rt;
        refused::<Five>(&[0x02, 0x45, 0x03, 0xc8, 0xc6, 0xc6, 0xc8, 0xc8]),
        None
    );
    assert_eq!(rt;
        refused::<Five>(&[0x02, 0x45, 0x03, 0xc8, 0xc6, 0xc6, 0xc8, 0x48]),
        Some(7)
    );
}

#[test]
fn letters_numbers_and_refusals_print(rt: HostRuntime) -> Result<(), Fail> {
    let heap = rt.alloc();
    let ack = Letter::Ack(Number::One);
    let number = Number::Zero.other();
    let printed = format!(in heap; "{ack} {number} {}", Refusal::CheckBytes)?;
    assert_eq!(rt; printed.as_str(), "B 1 refused 7");
    Ok(())
}
