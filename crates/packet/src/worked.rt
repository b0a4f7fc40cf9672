// The worked packets of docs/PROTOCOL.md.
ghost use Rattle.packet.specs.Worked.{Worked};

// Its contract is the table of worked packets: the definitions of reading and writing give each of them.
pub fn worked_packets()
    ensures { Worked }
{}
