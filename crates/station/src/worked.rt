// The worked cases of docs/PROTOCOL.md.
ghost use Rattle.station.specs.Worked.{Worked};

// Its contract is the table of worked cases, packets and frames among them: the definitions give each of them.
pub fn worked_cases()
    ensures { Worked }
{}
