// The writer of packets.
ghost use Rattle.std.specs.Prelude.{◌≡◌, ℕ, ◌+◌, ◌≤◌, ◌∷◌, ◌++◌, length, drop};
ghost use Rattle.packet.specs.Format.{covered, packet, writing, after_writing};
ghost use Rattle.packet.specs.Laws.{ReadsBack};
ghost use Rattle.packet.specs.Refusals.{answer};

use crate::checks::Check;
use crate::letter::Letter;
use crate::reader::{ETX, STX};
use crate::refusal::Refusal;

// A letter and a field come apart, not as a `Packet`: a caller may give a byte that is no letter.
// Writes the packet of a letter and a field to the front of `out` and tells its length, or refuses with 3, 4, 5 or 29.
pub fn write<K: Check>(letter: u8, field: &[u8], out: &mut [u8]) -> Result<usize, Refusal>
    ensures value { answer (λ n. n) result ≡ writing K.LEN letter field.now (length out.old) }
    ensures after { out.new ≡ after_writing (answer (λ n. n) result) (packet K.meaning letter field.now) out.old }
    ensures reads_back { ReadsBack K.LEN K.meaning letter field.now (answer (λ n. n) result) out.new }
{
    put_packet::<K>(letter, field, out)
}

// What `write` does. Apart from it, so that the law is proved at one return, from these two equations.
fn put_packet<K: Check>(letter: u8, field: &[u8], out: &mut [u8]) -> Result<usize, Refusal>
    ensures value { answer (λ n. n) result ≡ writing K.LEN letter field.now (length out.old) }
    ensures after { out.new ≡ after_writing (answer (λ n. n) result) (packet K.meaning letter field.now) out.old }
{
    Letter::try_from(letter)?.accept(field)?;
    let end = field.len() + 3;
    let length = end + K::LEN;
    if out.len() < length {
        return Err(Refusal::BufferTooShort);
    }
    put_frame(letter, field, out);
    let check = K::check(&out[1..end]);
    out[end..length].copy_from_slice(&check[..K::LEN]);
    Ok(length)
}

// STX, letter, field and ETX at the front of `out`.
fn put_frame(letter: u8, field: &[u8], out: &mut [u8])
    requires { length field.now + 3 ≤ length out.old }
    ensures { out.new ≡ (2 ∷ covered letter field.now) ++ drop (length field.now + 3) out.old }
{
    let n = field.len();
    out[0] = STX;
    out[1] = letter;
    out[2..n + 2].copy_from_slice(field);
    out[n + 2] = ETX;
}
