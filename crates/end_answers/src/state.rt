// The state of an end, in print.
ghost use Rattle.std.specs.Prelude.{◌≡◌, [], ◌∷◌, Some, IfOk, string_bytes};
ghost use Rattle.packet.specs.Bytes.{byte_of};
ghost use Rattle.station.specs.Models.{model};
ghost use Rattle.end_answers.specs.States.{status_text, last_text, holding_text, state_line};

use answers::print::OrNone;
use packet::checks::Check;
use packet::letter::Letter;
use packet::number::Number;
use primary::station::Status;
use station::end::End;
use station::report::Holding;
use std::alloc::{AllocError, Global};
use std::fmt;

// The primary station's part.
#[derive(Clone, Copy)]
struct Sender(Status);

impl fmt::Display for Sender {
    ghost output = { λ sender. Some (status_text sender.0) };

    fn fmt<W: fmt::Write>(&self, f: &mut fmt::Formatter<W>) -> fmt::Result {
        let Status {
            state,
            number,
            attempts,
            credit,
            ..
        } = self.0;
        write!(
            f,
            "state={state} number={number} attempts={attempts} credit={credit}"
        )
    }
}

// The secondary station's part.
#[derive(Clone, Copy)]
struct Receiver(Holding);

impl fmt::Display for Receiver {
    ghost output = { λ receiver. Some (holding_text receiver.0) };

    fn fmt<W: fmt::Write>(&self, f: &mut fmt::Formatter<W>) -> fmt::Result {
        let last = last_letter(self.0.last_answer);
        let out = OrNone(self.0.buffer_out);
        write!(f, "last={last} held={} out={out}", self.0.held)
    }
}

// The letter of the last answer.
fn last_letter(last: Option<Number>) -> Letter
    ensures { byte_of result ∷ [] ≡ last_text last }
{
    last.map_or(Letter::Reset, Letter::Ack)
}

// The state of an end.
pub fn state<K: Check>(heap: Global, end: &End<K>) -> Result<String, AllocError>
    ensures { IfOk result (λ s. string_bytes s ≡ state_line (model end.now)) }
{
    let status = end.status();
    let sender = Sender(status);
    let settings = end.settings();
    let receiver = Receiver(end.holding());
    let sending = status.unsettled;
    let outcomes = status.uncollected;
    format!(in heap; "{sender} {settings} {receiver} sending={sending} outcomes={outcomes}\n")
}
