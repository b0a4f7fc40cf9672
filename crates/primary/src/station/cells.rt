// The actions of the table's cells, and the step that chooses among them.
ghost use Rattle.std.specs.Prelude.{◌≡◌, true, [], drop, is_err, OnErr, slice_index_or};
ghost use Rattle.packet.specs.Numbers.{is_one};
ghost use Rattle.packet.specs.Refusals.{answer};
ghost use Rattle.primary.specs.declared.station.State.TheVariants.{Off, Ready, Waiting, Asking};
ghost use Rattle.primary.specs.Buffers.{unsettled};
ghost use Rattle.primary.specs.Model.{model, did, heard, HasCurrent};
ghost use Rattle.primary.specs.Outcomes.{outcome_number};
ghost use Rattle.primary.specs.Rules.{oldest};
ghost use Rattle.primary.specs.Station.{ready, submission, ack};
ghost use Rattle.primary.specs.Table.{at, moved, credited, rests, asks, sends_again, sends_next, arrives, gives_up, expires, cell, step_of, collected};

use crate::buffers::ring::sendable;
use crate::event::{Event, Step};
use crate::outcome::{Outcome, Tally};
use crate::station::{Primary, State};
use packet::number::Number;
use packet::refusal::Refusal;

// One message has arrived.
const ARRIVAL: Tally = Tally {
    arrived: 1,
    given_up: 0,
    no_connection: 0,
};

// `unchanged` speaks of a call and not of a value, so it stands at each. An ACK's number and credit come apart, as `Event::Ack`
// has them: a struct of both would be no plainer, as each cell takes it apart.
// What a cell needs stays a `requires`: a guard over `&mut Primary` with it as a ghost field is no plainer, as giving up ends it.
impl Primary {
    fn ask(&mut self) -> Step
        ensures { did self.new result ≡ asks (model self.old).phase (model self.old) }
    {
        self.attempts = self.attempts.saturating_add(1);
        Step::enq()
    }

    // An answer came while the station was off.
    fn connect(&mut self) -> Step
        requires { self.old.state ≡ Off }
        ensures { did self.new result ≡ rests (at ready (model self.old)) }
    {
        self.state = State::Ready;
        Step::default()
    }

    // An ACK came while the station was off.
    fn connect_under(&mut self, number: Number, credit: u8) -> Step
        requires { self.old.state ≡ Off }
        ensures { did self.new result ≡ rests (moved ready (is_one number) self.old.attempts (credited credit (model self.old))) }
    {
        self.credit = credit;
        self.number = number;
        self.connect()
    }

    // An ACK that says nothing but its credit.
    fn note(&mut self, credit: u8) -> Step
        ensures { did self.new result ≡ rests (credited credit (model self.old)) }
    {
        self.credit = credit;
        Step::default()
    }

    // The oldest message without outcome is sent under the other number.
    fn send_next(&mut self) -> Step
        requires { self.old.state ≡ Waiting }
        ensures { did self.new result ≡ sends_next (slice_index_or (unsettled self.old.buffers) 0 []) (drop 1 (unsettled self.old.buffers)) 0 (model self.old) }
    {
        self.number = self.number.other();
        self.attempts = 0;
        Step::data(self.number)
    }

    // The current message is sent again, under its number.
    fn send_again(&mut self) -> Step
        requires { HasCurrent self.old }
        ensures { did self.new result ≡ sends_again (slice_index_or (unsettled self.old.buffers) 0 []) (drop 1 (unsettled self.old.buffers)) (model self.old) }
    {
        self.state = State::Waiting;
        self.attempts = self.attempts.saturating_add(1);
        Step::data(self.number)
    }

    // The current message has arrived.
    fn arrived(&mut self) -> Step
        requires { HasCurrent self.old }
        ensures { did self.new result ≡ arrives (drop 1 (unsettled self.old.buffers)) (model self.old) }
    {
        self.buffers.settle(Outcome::Arrived);
        if self.buffers.unsettled() == 0 {
            self.state = State::Ready;
            self.attempts = 0;
            return Step {
                tally: ARRIVAL,
                ..Step::default()
            };
        }
        self.state = State::Waiting;
        Step {
            tally: ARRIVAL,
            ..self.send_next()
        }
    }

    // An ACK came while DATA waited for it.
    fn acknowledge(&mut self, number: Number, credit: u8) -> Step
        requires { self.old.state ≡ Waiting }
        ensures { did self.new result ≡ cell 0 (credited credit (model self.old)) (model self.old).phase (ack (is_one number) credit) }
    {
        if number == self.number {
            self.credit = credit;
            return self.arrived();
        }
        self.note(credit)
    }

    // An ACK came as the answer to ENQ.
    fn answer(&mut self, number: Number, credit: u8) -> Step
        requires { self.old.state ≡ Asking }
        ensures { did self.new result ≡ cell 0 (credited credit (model self.old)) (model self.old).phase (ack (is_one number) credit) }
    {
        self.credit = credit;
        if number == self.number {
            return self.arrived();
        }
        self.send_again()
    }

    // No answer came.
    fn expired(&mut self, limit: u8) -> Step
        requires { HasCurrent self.old }
        ensures { did self.new result ≡ expires limit (slice_index_or (unsettled self.old.buffers) 0 []) (drop 1 (unsettled self.old.buffers)) (model self.old) }
    {
        if self.attempts < limit {
            self.state = State::Asking;
            return self.ask();
        }
        self.give_up()
    }

    // The current message is given up, and no connection is left for those that wait.
    fn give_up(&mut self) -> Step
        requires { HasCurrent self.old }
        ensures { did self.new result ≡ gives_up (drop 1 (unsettled self.old.buffers)) (model self.old) }
    {
        self.state = State::Off;
        self.attempts = 1;
        self.buffers.settle(Outcome::GivenUp);
        let waiting = self.buffers.unsettled() as u8;
        self.buffers.settle_rest();
        Step {
            tally: Tally {
                arrived: 0,
                given_up: 1,
                no_connection: waiting,
            },
            ..Step::enq()
        }
    }

    // A message for a station that is off: it is refused, for what it is or else with 18.
    fn refuse(&self, message: &[u8]) -> Result<Step, Refusal>
        requires { self.now.state ≡ Off }
        ensures { (answer (did self.now) result ≡ step_of 0 (model self.now) (submission message.now)) × (is_err result ≡ true) }
    {
        sendable(message)?;
        Err(Refusal::NotConnected)
    }

    // A message for a station that is ready: it is sent at once.
    fn send_first(&mut self, message: &[u8]) -> Result<Step, Refusal>
        requires { self.old.state ≡ Ready }
        ensures value { answer (did self.new) result ≡ step_of 0 (model self.old) (submission message.now) }
        ensures unchanged { OnErr result (self.new ≡ self.old) }
    {
        self.buffers.accept(message)?;
        self.state = State::Waiting;
        Ok(self.send_next())
    }

    // A message while another is under way: it waits.
    fn queue(&mut self, message: &[u8]) -> Result<Step, Refusal>
        requires { HasCurrent self.old }
        ensures value { answer (did self.new) result ≡ step_of 0 (model self.old) (submission message.now) }
        ensures unchanged { OnErr result (self.new ≡ self.old) }
    {
        self.buffers.accept(message)?;
        Ok(Step::default())
    }

    // What the station does at an event, with the attempt limit as it is now: the action table. Only a submission can be
    // refused, with 16 to 19. One match on state and event: a rule of the project.
    pub fn step(&mut self, event: Event<'_>, limit: u8) -> Result<Step, Refusal>
        ensures value { answer (did self.new) result ≡ step_of limit (model self.old) (heard event.entry) }
        ensures unchanged { OnErr result (self.new ≡ self.old) }
    {
        match (self.state, event) {
            (State::Off, Event::Submission(message)) => self.refuse(message),
            (State::Off, Event::Reset) => Ok(self.connect()),
            (State::Off, Event::Ack(number, credit)) => Ok(self.connect_under(number, credit)),
            (State::Off, Event::Timeout) => Ok(self.ask()),
            (State::Ready, Event::Submission(message)) => self.send_first(message),
            (State::Ready, Event::Reset | Event::Timeout) => Ok(Step::default()),
            (State::Ready, Event::Ack(_, credit)) => Ok(self.note(credit)),
            (State::Waiting | State::Asking, Event::Submission(message)) => self.queue(message),
            (State::Waiting, Event::Reset) => Ok(Step::default()),
            (State::Waiting, Event::Ack(number, credit)) => Ok(self.acknowledge(number, credit)),
            (State::Asking, Event::Reset) => Ok(self.send_again()),
            (State::Asking, Event::Ack(number, credit)) => Ok(self.answer(number, credit)),
            (State::Waiting | State::Asking, Event::Timeout) => Ok(self.expired(limit)),
        }
    }

    // Tells the oldest uncollected outcome and frees its buffer, which then keeps no message, or refuses with 20.
    pub fn collect(&mut self) -> Result<Outcome, Refusal>
        ensures value { answer outcome_number result ≡ oldest (model self.old).outcomes }
        ensures after { model self.new ≡ collected (model self.old) }
        ensures unchanged { OnErr result (self.new ≡ self.old) }
    {
        let outcome = self.buffers.oldest_outcome().ok_or(Refusal::NoOutcome)?;
        self.buffers.free_oldest();
        Ok(outcome)
    }
}
