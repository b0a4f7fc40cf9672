// The reader of packets.
ghost use Rattle.std.specs.Prelude.{◌≡◌, ℕ, ◌+◌, ◌≤◌, ◌&&◌, length, if◌then◌else◌, Some, None, ◌==◌, slice_index};
ghost use Rattle.std.specs.Option.{option_map};
ghost use Rattle.std.specs.Str.{bytes_eq};
ghost use Rattle.packet.specs.Bytes.{byte_of};
ghost use Rattle.packet.specs.Format.{reading, check_of, covered_of};
ghost use Rattle.packet.specs.Laws.{ReadAsWritten, AlteredRefused};
ghost use Rattle.packet.specs.Letters.{between, is_data, is_ack};
ghost use Rattle.packet.specs.Packets.{told};
ghost use Rattle.packet.specs.Refusals.{answer};

use crate::checks::Check;
use crate::letter::Letter;
use crate::refusal::Refusal;

pub const STX: u8 = 0x02;

pub const ETX: u8 = 0x03;

// Where the field of a packet begins.
const FIELD_PLACE: usize = 2;

// What reading gives: the letter, and the field as that part of the burst, with its place there.
#[derive(Clone, Copy)]
pub struct Packet<'a> {
    pub letter: Letter,
    pub place: usize,
    pub field: &'a [u8],
}

impl<'a> Packet<'a> {
    // The message of DATA.
    pub fn message(self) -> Option<&'a [u8]>
        ensures { option_map (λ x. x.now) result ≡ (if is_data (byte_of self.entry.letter) then Some self.entry.field.now else None) }
    {
        match self.letter {
            Letter::Data(_) => Some(self.field),
            _ => None,
        }
    }

    // The credit byte of ACK.
    pub fn credit(self) -> Option<u8>
        ensures { result ≡ (if is_ack (byte_of self.entry.letter) && length self.entry.field.now == 1 then Some (slice_index self.entry.field.now 0) else None) }
    {
        match (self.letter, self.field) {
            (Letter::Ack(_), [credit]) => Some(*credit),
            _ => None,
        }
    }
}

// Reads a burst, or refuses it with 1 to 7. A TryFrom would be no plainer: here its three promises have names.
pub fn read<K: Check>(burst: &[u8]) -> Result<Packet<'_>, Refusal>
    ensures value { answer told result ≡ reading K.LEN K.meaning burst.now }
    ensures as_written { ReadAsWritten K.LEN K.meaning burst.now (answer told result) }
    ensures altered { AlteredRefused K.LEN K.meaning burst.now (answer told result) }
{
    take_apart::<K>(burst)
}

// What `read` answers. Apart from it, so that the laws are proved at one return, from this one equation.
fn take_apart<K: Check>(burst: &[u8]) -> Result<Packet<'_>, Refusal>
    ensures { answer told result ≡ reading K.LEN K.meaning burst.now }
{
    let n = burst.len();
    if !length_fits::<K>(n) {
        return Err(Refusal::BurstLength);
    }
    let [first, letter, rest @ ..] = burst else {
        return Err(Refusal::BurstLength);
    };
    if *first != STX {
        return Err(Refusal::FirstByte);
    }
    let letter = Letter::try_from(*letter)?;
    let end = n - K::LEN - 3;
    let field = &rest[..end];
    letter.accept(field)?;
    if rest[end] != ETX {
        return Err(Refusal::EndByte);
    }
    if !check_stands::<K>(burst) {
        return Err(Refusal::CheckBytes);
    }
    Ok(Packet {
        letter,
        place: FIELD_PLACE,
        field,
    })
}

// Whether a packet may have `n` bytes.
fn length_fits<K: Check>(n: usize) -> bool
    ensures { result ≡ between (3 + K.LEN) (99 + K.LEN) n }
{
    (3 + K::LEN..=99 + K::LEN).contains(&n)
}

// Whether the last bytes are the check of those from the letter to them.
fn check_stands<K: Check>(burst: &[u8]) -> bool
    requires { 3 + K.LEN ≤ length burst.now }
    ensures { result ≡ bytes_eq (check_of K.LEN burst.now) (K.meaning (covered_of K.LEN burst.now)) }
{
    let end = burst.len() - K::LEN;
    let check = K::check(&burst[1..end]);
    burst[end..] == check[..K::LEN]
}
