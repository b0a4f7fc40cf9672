// The receive buffers, by the list of messages that they stand for.
ghost use Rattle.std.specs.Prelude.{◌≡◌, ◌+◌, ◌-◌, ◌%◌, ◌<◌, ◌≤◌, [], ◌∷◌, ◌++◌, length, drop};
ghost use Rattle.buffer.specs.Buffers.{contents};
ghost use Rattle.secondary.specs.Buffers.{messages, next_buffer, oldest_of};

use super::Deliveries;
use buffer::Buffer;

impl Deliveries {
    pub(crate) fn new() -> Deliveries
        ensures { (messages result ≡ []) × ((result.oldest ≡ 0) × (result.held ≡ 0)) }
    {
        Deliveries {
            buffers: [Buffer::new(); 8],
            oldest: 0,
            held: 0,
        }
    }

    #[tactic(auto, using(buffer::proofs::Turns::length_turns))]
    pub(crate) fn held(&self) -> u8
        ensures { result ≡ length (messages self.now) }
    {
        self.held as u8
    }

    // The number of the oldest buffer, as the station's model works it out.
    #[tactic(auto, using(buffer::proofs::Turns::length_turns))]
    pub(crate) fn oldest(&self) -> u8
        ensures { result ≡ (next_buffer self.now + 8 - length (messages self.now)) % 8 }
    {
        self.oldest as u8
    }

    // Stores the message in the next buffer.
    pub(crate) fn store(&mut self, message: Buffer<96>)
        requires { self.old.held < 8 }
        ensures messages { messages self.new ≡ messages self.old ++ contents message ∷ [] }
        ensures oldest { self.new.oldest ≡ self.old.oldest }
        ensures held { self.new.held ≡ self.old.held + 1 }
    {
        self.buffers[(self.oldest + self.held) % 8] = message;
        self.held += 1;
    }

    // Copies the oldest message to the front of `place`, and tells its length.
    pub(crate) fn copy_oldest(&self, place: &mut [u8]) -> usize
        requires { (96 ≤ length place.old) × (0 < self.now.held) }
        ensures value { result ≡ length (oldest_of (messages self.now)) }
        ensures copied { place.new ≡ oldest_of (messages self.now) ++ drop (length (oldest_of (messages self.now))) place.old }
    {
        self.buffers[self.oldest].copy_to(place)
    }

    // Frees the oldest buffer.
    #[tactic(auto, using(buffer::proofs::Turns::first_of))]
    pub(crate) fn release(&mut self)
        requires { 0 < self.old.held }
        ensures messages { messages self.new ≡ drop 1 (messages self.old) }
        ensures oldest { self.new.oldest ≡ (self.old.oldest + 1) % 8 }
        ensures held { self.new.held ≡ self.old.held - 1 }
    {
        self.oldest = (self.oldest + 1) % 8;
        self.held -= 1;
    }
}
