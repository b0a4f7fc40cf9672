//! What an opened line is, what its calls do to it, and what it promises whatever its media do.
#![tactic(auto)]

ghost use Rattle.agreement.specs.Theorem.{StaysKept};
ghost use Rattle.agreement.specs.Worked.{WorkedLedgers, WorkedStores};

mod sides;

use packet::checks::Check;
pub use sides::Side;

/// The promise of a line: after its opening and any calls, refused ones too, with either end as the near one, over every two
/// media and every kind of check.
pub fn stays_kept<K: Check>()
    ensures { StaysKept K.LEN K.meaning }
{}

/// A table of worked transcripts: what the words of the promise say of each.
pub fn worked_transcripts()
    ensures ledgers { WorkedLedgers }
    ensures stores { WorkedStores }
{}
