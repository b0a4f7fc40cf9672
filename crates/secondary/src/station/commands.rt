// The opening and the two commands.
ghost use Rattle.std.specs.Prelude.{◌≡◌, OnErr};
ghost use Rattle.buffer.specs.Buffers.{contents};
ghost use Rattle.packet.specs.Refusals.{answer, judged};
ghost use Rattle.secondary.specs.Laws.{LeaveInOrder};
ghost use Rattle.secondary.specs.Station.{model, opened, free_buffers, enq_answer, message_rules, data_answer, after_data};

use super::Secondary;
use crate::deliveries::Deliveries;
use crate::reply::Answer;
use buffer::Buffer;
use packet::number::Number;
use packet::refusal::Refusal;

// A message that a buffer takes: one of 1 to 96 bytes. The primary station's test goes on from here to the bytes; the two
// lines that both have are no plainer as a call.
fn storable(message: &[u8]) -> Result<Buffer<96>, Refusal>
    ensures { answer contents result ≡ judged (message_rules message.now) message.now }
{
    if message.is_empty() {
        return Err(Refusal::MessageLength);
    }
    Buffer::from_slice(message).ok_or(Refusal::MessageLength)
}

impl Secondary {
    // A station that holds nothing, on the line of this number.
    pub fn new(line: u8) -> Secondary
        ensures value { model result ≡ opened line }
        ensures in_order { LeaveInOrder (model result) }
    {
        Secondary {
            line,
            last: None,
            deliveries: Deliveries::new(),
            out: false,
        }
    }

    fn free_buffers(&self, receive_limit: u8) -> u8
        ensures { result ≡ free_buffers receive_limit (model self.now) }
    {
        receive_limit.min(8).saturating_sub(self.held())
    }

    // ENQ: the last answer again, with the credit of now; no answer while no buffer is free.
    pub fn enq(&self, receive_limit: u8) -> Option<Answer>
        ensures { result ≡ enq_answer receive_limit (model self.now) }
    {
        let free = self.free_buffers(receive_limit);
        if free == 0 {
            return None;
        }
        Some(
            self.last
                .map_or(Answer::Reset, |number| Answer::Ack(number, free)),
        )
    }

    // DATA: stores the message and acknowledges it; ignored while no buffer is free.
    pub fn data(
        &mut self,
        number: Number,
        message: &[u8],
        receive_limit: u8,
    ) -> Result<Option<Answer>, Refusal>
        ensures value { answer (λ x. x) result ≡ data_answer receive_limit number message.now (model self.old) }
        ensures after { model self.new ≡ after_data receive_limit number message.now (model self.old) }
        ensures unchanged { OnErr result (self.new ≡ self.old) }
    {
        let message = storable(message)?;
        let free = self.free_buffers(receive_limit);
        if free == 0 {
            return Ok(None);
        }
        self.deliveries.store(message);
        self.last = Some(number);
        Ok(Some(Answer::Ack(number, free - 1)))
    }
}
