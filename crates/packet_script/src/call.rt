// What a line asks for that begins `packet`.
ghost use Rattle.std.specs.Prelude.{◌≡◌};
ghost use Rattle.script_words.specs.Arguments.{argument};
ghost use Rattle.script_words.specs.Told.{told, asked};
ghost use Rattle.script_words.specs.declared.fault.Fault.TheVariants as fault;
ghost use Rattle.packet_script.specs.Calls.{letter, read_call, write_call, packet_call};
ghost use Rattle.packet_script.specs.Told.{call_of};

use notation::hex::{are_pairs, byte};
use script_words::arguments::Arguments;
use script_words::fault::Fault;
use script_words::words::{Bytes, Kind};

// The size of a place where a line leaves it out.
const PLACE: usize = 104;

#[derive(Clone, Copy)]
pub enum PacketCall<'a> {
    Read {
        kind: Kind,
        burst: Bytes<'a>,
    },
    Write {
        kind: Kind,
        letter: u8,
        field: Bytes<'a>,
        size: usize,
    },
}

// The rest of a line that begins `packet`.
pub fn parse(mut words: Arguments<'_>) -> Result<PacketCall<'_>, Fault>
    ensures { asked call_of result ≡ packet_call words.entry.rest.now }
{
    match words.due()? {
        b"read" => read_call(words),
        b"write" => write_call(words),
        _ => Err(Fault::UnknownCommand),
    }
}

// The rest of a line that begins `packet read`.
fn read_call(mut words: Arguments<'_>) -> Result<PacketCall<'_>, Fault>
    ensures { asked call_of result ≡ read_call words.entry.rest.now }
{
    let kind = words.kind()?;
    let burst = words.bytes()?;
    words.end(PacketCall::Read { kind, burst })
}

// The rest of a line that begins `packet write`.
fn write_call(mut words: Arguments<'_>) -> Result<PacketCall<'_>, Fault>
    ensures { asked call_of result ≡ write_call words.entry.rest.now }
{
    let kind = words.kind()?;
    let letter = letter(&mut words)?;
    let field = words.bytes()?;
    let size = words.size_or(PLACE)?;
    words.end(PacketCall::Write {
        kind,
        letter,
        field,
        size,
    })
}

fn letter(words: &mut Arguments<'_>) -> Result<u8, Fault>
    ensures { told (λ l. l) result words.new.rest.now ≡ argument letter fault.Letter words.old.rest.now }
{
    match words.due()? {
        word @ [high, low] if are_pairs(word) => Ok(byte(*high, *low)),
        _ => Err(Fault::Letter),
    }
}
