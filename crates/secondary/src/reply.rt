// What a secondary station answers.
use packet::number::Number;

// RESET until a message is stored, then an ACK of the last one stored, with the credit. No Option of these: RESET is an answer
// too.
#[derive(Clone, Copy, Debug, PartialEq, Eq)]
pub enum Answer {
    Reset,
    Ack(Number, u8),
}
