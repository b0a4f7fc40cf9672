// What is printed for a packet call.
ghost use Rattle.std.specs.Prelude.{◌≡◌, IfOk, string_bytes};
ghost use Rattle.packet.specs.Format.{packet, reading, writing};
ghost use Rattle.answers.specs.Lines.{burst_line};
ghost use Rattle.packet_bench.specs.Printed.{read_line, write_line, printed};
ghost use Rattle.packet_script.specs.Told.{call_of};

use crate::answer;
use answers::print::PlacedBurst;
use answers::{print, values};
use packet::checks::Check;
use packet::reader::read;
use packet::sum::Sum;
use packet::writer::write;
use packet::xor::Xor;
use packet_script::call::PacketCall;
use script_words::words::Kind;
use std::alloc::{AllocError, Global};

// The kind is matched in both arms: it is a type of each call, and no value can stand for it.
pub fn run(heap: Global, call: PacketCall<'_>) -> Result<String, AllocError>
    ensures { IfOk result (λ s. string_bytes s ≡ printed (call_of call.entry)) }
{
    match call {
        PacketCall::Read { kind, burst } => {
            let burst = values::bytes(heap, burst)?;
            match kind {
                Kind::Sum => read_burst::<Sum>(heap, &burst),
                Kind::Xor => read_burst::<Xor>(heap, &burst),
            }
        }
        PacketCall::Write {
            kind,
            letter,
            field,
            size,
        } => {
            let field = values::bytes(heap, field)?;
            match kind {
                Kind::Sum => write_packet::<Sum>(heap, letter, &field, size),
                Kind::Xor => write_packet::<Xor>(heap, letter, &field, size),
            }
        }
    }
}

fn read_burst<K: Check>(heap: Global, burst: &[u8]) -> Result<String, AllocError>
    ensures { IfOk result (λ s. string_bytes s ≡ read_line (reading K.LEN K.meaning burst.now)) }
{
    match read::<K>(burst) {
        Ok(packet) => answer::read(heap, packet),
        Err(why) => print::refused(heap, why),
    }
}

// A packet that was written.
fn written(heap: Global, burst: &[u8]) -> Result<String, AllocError>
    ensures { IfOk result (λ s. string_bytes s ≡ burst_line burst.now) }
{
    let burst = PlacedBurst { bytes: burst };
    format!(in heap; "{burst}\n")
}

fn write_packet<K: Check>(
    heap: Global,
    letter: u8,
    field: &[u8],
    length: usize,
) -> Result<String, AllocError>
    ensures { IfOk result (λ s. string_bytes s ≡ write_line (writing K.LEN letter field.now length) (packet K.meaning letter field.now)) }
{
    let mut place = values::place(heap, length)?;
    match write::<K>(letter, field, &mut place) {
        Ok(end) => written(heap, &place[0..end]),
        Err(why) => print::refused(heap, why),
    }
}
