// What an end tells of itself.
ghost use Rattle.std.specs.Prelude.{◌≡◌, length};
ghost use Rattle.packet.specs.Numbers.{is_one};
ghost use Rattle.primary.specs.Model.{state_of};
ghost use Rattle.primary.specs.Station.{unsettled_in};
ghost use Rattle.secondary.specs.Station.{buffer_out};
ghost use Rattle.station.specs.Models.{model};

use crate::end::End;
use crate::report::Holding;
use packet::checks::Check;
use primary::station::Status;
use settings::values::Settings;

impl<K: Check> End<K> {
    pub fn settings(&self) -> Settings
        ensures { result ≡ (model self.now).settings }
    {
        self.settings
    }

    // The primary station: its state, number and attempts, the credit last heard (9 if none was, a number of the
    // protocol), how many messages are without outcome, and how many outcomes are not collected.
    pub fn status(&self) -> Status
        ensures state { result.state ≡ state_of (model self.now).primary.phase }
        ensures number { is_one result.number ≡ (model self.now).primary.number }
        ensures attempts { result.attempts ≡ (model self.now).primary.attempts }
        ensures credit { result.credit ≡ (model self.now).primary.credit }
        ensures unsettled { result.unsettled ≡ length (unsettled_in (model self.now).primary.phase) }
        ensures uncollected { result.uncollected ≡ length (model self.now).primary.outcomes }
    {
        self.primary.status()
    }

    // The secondary station.
    pub fn holding(&self) -> Holding
        ensures last { result.last_answer ≡ (model self.now).secondary.last }
        ensures held { result.held ≡ length (model self.now).secondary.held }
        ensures out { result.buffer_out ≡ buffer_out (model self.now).secondary }
    {
        Holding {
            last_answer: self.secondary.last_answer(),
            held: self.secondary.held(),
            buffer_out: self.secondary.buffer_out(),
        }
    }
}
