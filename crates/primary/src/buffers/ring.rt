// The send buffers' methods, by the two lists that the ring stands for.
ghost use Rattle.std.specs.Prelude.{◌≡◌, ℕ, ◌+◌, ◌-◌, ◌<◌, ◌≤◌, List, [], ◌∷◌, ◌++◌, length, drop, replicate, OnOk, OnErr, OnSome};
ghost use Rattle.std.specs.List.{slice_get};
ghost use Rattle.std.specs.Option.{option_map};
ghost use Rattle.buffer.specs.Buffers.{contents};
ghost use Rattle.packet.specs.Refusals.{answer, judged};
ghost use Rattle.primary.specs.Buffers.{unsettled, uncollected, message_at, Accepted};
ghost use Rattle.primary.specs.declared.outcome.Outcome.TheVariants.{NoConnection};
ghost use Rattle.primary.specs.Outcomes.{outcome_number};
ghost use Rattle.primary.specs.Rules.{message_rules, room_rules};

use crate::buffers::{SendBuffer, SendBuffers};
use crate::outcome::Outcome;
use buffer::Buffer;
use packet::letter::all_between;
use packet::refusal::Refusal;

const CAPACITY: usize = 8;

// A message that DATA can carry; what it cannot is refused with 16 or 17. The two lines that `storable` and `Burst::of` have
// too are no plainer as a call.
pub(crate) fn sendable(message: &[u8]) -> Result<Buffer<96>, Refusal>
    ensures { answer contents result ≡ judged (message_rules message.now) message.now }
{
    if message.is_empty() {
        return Err(Refusal::MessageLength);
    }
    let kept = Buffer::from_slice(message).ok_or(Refusal::MessageLength)?;
    if !all_between(0x20, 0x7e, message) {
        return Err(Refusal::MessageByte);
    }
    Ok(kept)
}

impl SendBuffers {
    pub(crate) fn new() -> SendBuffers
        ensures { (unsettled result ≡ []) × ((uncollected result ≡ []) × ((result.done ≡ 0) × (result.used ≡ 0))) }
    {
        let empty = SendBuffer {
            message: Buffer::new(),
            outcome: Outcome::NoConnection,
        };
        SendBuffers {
            buffers: [empty; 8],
            head: 0,
            done: 0,
            used: 0,
        }
    }

    // How many messages are without outcome.
    #[tactic(auto, using(buffer::proofs::Turns::length_turns))]
    pub(crate) fn unsettled(&self) -> usize
        ensures value { result ≡ length (unsettled self.now) }
        ensures count { result ≡ self.now.used - self.now.done }
    {
        self.used - self.done
    }

    // How many outcomes are not collected.
    #[tactic(auto, using(buffer::proofs::Turns::length_turns))]
    pub(crate) fn uncollected(&self) -> usize
        ensures { result ≡ length (uncollected self.now) }
    {
        self.done
    }

    // Takes a message into a free buffer; one that DATA cannot carry, or that no buffer is free for, is refused with 16, 17 or 19.
    #[tactic(auto, using(buffer::proofs::Turns::length_turns, buffer::proofs::Turns::before_kept, buffer::proofs::Turns::one_more, packet::proofs::Judging::passed))]
    pub(crate) fn accept(&mut self, message: &[u8]) -> Result<(), Refusal>
        ensures value { answer (λ u. u) result ≡ judged (message_rules message.now ++ room_rules (length (unsettled self.old) + length (uncollected self.old))) tt }
        ensures taken { OnOk result (Accepted message.now self.old self.new) }
        ensures unchanged { OnErr result (self.new ≡ self.old) }
    {
        let kept = sendable(message)?;
        if self.used == CAPACITY {
            return Err(Refusal::SendBuffersFull);
        }
        self.buffers[(self.head + self.used) % CAPACITY].message = kept;
        self.used += 1;
        Ok(())
    }

    // The oldest message without outcome.
    pub(crate) fn current(&self) -> Option<&[u8]>
        ensures { option_map (λ x. x.now) result ≡ slice_get (unsettled self.now) 0 }
    {
        let current = &self.buffers[(self.head + self.done) % CAPACITY];
        (self.done < self.used).then_some(current.message.as_slice())
    }

    // The oldest message without outcome gets one.
    #[tactic(auto, using(buffer::proofs::Turns::behind_kept, buffer::proofs::Turns::one_more))]
    pub(crate) fn settle(&mut self, outcome: Outcome)
        requires { self.old.done < self.old.used }
        ensures waits { unsettled self.new ≡ drop 1 (unsettled self.old) }
        ensures told { uncollected self.new ≡ uncollected self.old ++ outcome_number outcome ∷ [] }
        ensures count { (self.new.done ≡ self.old.done + 1) × (self.new.used ≡ self.old.used) }
    {
        self.buffers[(self.head + self.done) % CAPACITY].outcome = outcome;
        self.done += 1;
    }

    // Each message without outcome gets no connection.
    #[tactic(auto, using(buffer::proofs::Turns::length_turns, crate::proofs::Rest::one_settled))]
    pub(crate) fn settle_rest(&mut self)
        ensures waits { unsettled self.new ≡ [] }
        ensures told { uncollected self.new ≡ uncollected self.old ++ replicate (length (unsettled self.old)) (outcome_number NoConnection) }
        ensures count { self.new.done ≡ self.new.used }
    {
        for _ in 0..self.unsettled() {
            self.settle(Outcome::NoConnection);
        }
    }

    // The oldest outcome not collected.
    pub(crate) fn oldest_outcome(&self) -> Option<Outcome>
        ensures value { option_map outcome_number result ≡ slice_get (uncollected self.now) 0 }
        ensures some { OnSome result (0 < self.now.done) }
    {
        (self.done > 0).then_some(self.buffers[self.head].outcome)
    }

    // Frees the buffer of the oldest outcome, and empties it: a message that was collected does not stay in memory.
    #[tactic(auto, using(crate::proofs::Freed::later_stay, crate::proofs::Freed::first_goes))]
    pub(crate) fn free_oldest(&mut self)
        requires { 0 < self.old.done }
        ensures waits { unsettled self.new ≡ unsettled self.old }
        ensures told { uncollected self.new ≡ drop 1 (uncollected self.old) }
        ensures count { (self.new.done + 1 ≡ self.old.done) × (self.new.used + 1 ≡ self.old.used) }
        ensures emptied { message_at self.old.head self.new ≡ [] }
    {
        self.buffers[self.head].message = Buffer::new();
        self.head = (self.head + 1) % CAPACITY;
        self.done -= 1;
        self.used -= 1;
    }
}
