// What is printed of a packet.
ghost use Rattle.std.specs.Prelude.{◌≡◌, IfOk, string_bytes};
ghost use Rattle.packet.specs.Packets.{told as packet_told};
ghost use Rattle.packet.specs.Refusals.{gave};
ghost use Rattle.packet_bench.specs.Printed.{read_line};

use notation::hex::Hex;
use packet::reader::Packet;
use std::alloc::{AllocError, Global};

pub(crate) fn read(heap: Global, packet: Packet<'_>) -> Result<String, AllocError>
    ensures { IfOk result (λ s. string_bytes s ≡ read_line (gave (packet_told packet.entry))) }
{
    let letter = packet.letter;
    let place = packet.place;
    let length = packet.field.len();
    let field = Hex::of(packet.field);
    format!(in heap; "letter={letter} place={place} length={length} field={field}\n")
}
