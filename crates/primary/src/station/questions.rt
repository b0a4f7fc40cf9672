// What a station tells of itself.
ghost use Rattle.std.specs.Prelude.{◌≡◌, length};
ghost use Rattle.std.specs.Option.{option_map};
ghost use Rattle.packet.specs.Numbers.{is_one};
ghost use Rattle.primary.specs.Events.{asks_again};
ghost use Rattle.primary.specs.Model.{model, did, state_of};
ghost use Rattle.primary.specs.Station.{current_in, unsettled_in};
ghost use Rattle.primary.specs.Table.{opening};

use crate::buffers::SendBuffers;
use crate::station::{Primary, State, Status};
use packet::number::Number;

impl Primary {
    // A new station. `Step::enq()` is what it sends then.
    pub fn open() -> Primary
        ensures { did result asks_again ≡ opening }
    {
        Primary {
            buffers: SendBuffers::new(),
            state: State::Off,
            number: Number::One,
            attempts: 1,
            credit: 9,
        }
    }

    pub fn status(&self) -> Status
        ensures state { result.state ≡ state_of (model self.now).phase }
        ensures number { is_one result.number ≡ (model self.now).number }
        ensures attempts { result.attempts ≡ (model self.now).attempts }
        ensures credit { result.credit ≡ (model self.now).credit }
        ensures unsettled { result.unsettled ≡ length (unsettled_in (model self.now).phase) }
        ensures uncollected { result.uncollected ≡ length (model self.now).outcomes }
    {
        Status {
            state: self.state,
            number: self.number,
            attempts: self.attempts,
            credit: self.credit,
            unsettled: self.buffers.unsettled(),
            uncollected: self.buffers.uncollected(),
        }
    }

    // The oldest message without outcome, which DATA carries.
    pub fn current(&self) -> Option<&[u8]>
        ensures { option_map (λ x. x.now) result ≡ current_in (model self.now).phase }
    {
        self.buffers.current()
    }
}
