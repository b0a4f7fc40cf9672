//! What a line tells of a side. A question is no call: it changes nothing and stands in no list of calls.
ghost use Rattle.std.specs.Prelude.{◌≡◌};
ghost use Rattle.packet.specs.Refusals.{answer};
ghost use Rattle.agreement.specs.Line.{side_answer};
ghost use Rattle.line.specs.Asked.{end_asked, Tells, StatusOf, HoldingOf};
ghost use Rattle.station.specs.End.{seen};
ghost use Rattle.station.specs.Models.{model};

use crate::opened::Line;
use agreement::Side;
use packet::checks::Check;
use packet::refusal::Refusal;
use primary::station::Status;
use settings::values::Settings;
use station::end::End;
use station::report::Holding;

impl<K: Check> Line<K> {
    /// The end at the side of this number, to be asked. Refused with 25.
    pub fn end(&self, side: u8) -> Result<&End<K>, Refusal>
        ensures { answer (λ e. model e.now) result ≡ end_asked (side_answer side) self.now }
    {
        match Side::try_from(side)? {
            Side::West => Ok(&self.west),
            Side::East => Ok(&self.east),
        }
    }

    /// The primary station of a side: its state, number and attempts, the credit last heard (9 if none was), how many messages
    /// are without outcome, and how many outcomes are not collected. Refused with 25.
    pub fn status(&self, side: u8) -> Result<Status, Refusal>
        ensures { Tells StatusOf (end_asked (side_answer side) self.now) result }
    {
        Ok(self.end(side)?.status())
    }

    /// The secondary station of a side: its last answer's number, how many deliveries it holds, and the buffer that is out.
    /// Refused with 25.
    pub fn holding(&self, side: u8) -> Result<Holding, Refusal>
        ensures { Tells HoldingOf (end_asked (side_answer side) self.now) result }
    {
        Ok(self.end(side)?.holding())
    }

    /// The settings of a side. Refused with 25.
    pub fn settings(&self, side: u8) -> Result<Settings, Refusal>
        ensures { answer (λ s. s) result ≡ seen (λ e. e.settings) (end_asked (side_answer side) self.now) }
    {
        Ok(self.end(side)?.settings())
    }
}
