// Why a call refuses: one table of numbers for the whole product.
ghost use Rattle.std.specs.Prelude.{◌≡◌, ◌++◌, Some, codes, decimal};
ghost use Rattle.packet.specs.Refusals.{number_of};

use std::error::Error;
use std::fmt;

#[derive(Clone, Copy, Debug, PartialEq, Eq)]
pub enum Refusal {
    BurstLength = 1,
    FirstByte = 2,
    UnknownLetter = 3,
    FieldLength = 4,
    FieldByte = 5,
    EndByte = 6,
    CheckBytes = 7,
    FrameLength = 8,
    FrameVersion = 9,
    FrameLengthField = 10,
    Period = 11,
    AttemptLimit = 12,
    ReceiveLimit = 13,
    AnswerAwaited = 14,
    DeliveriesHeld = 15,
    MessageLength = 16,
    MessageByte = 17,
    NotConnected = 18,
    SendBuffersFull = 19,
    NoOutcome = 20,
    PlaceTooShort = 21,
    DeliveryOut = 22,
    NoDelivery = 23,
    WrongSlip = 24,
    UnknownSide = 25,
    NothingUnderWay = 26,
    StillUnderWay = 27,
    MediumInUse = 28,
    BufferTooShort = 29,
}

impl From<Refusal> for u8 {
    ghost from_gives = { λ refusal number. number ≡ number_of refusal };

    fn from(refusal: Refusal) -> u8 {
        refusal as u8
    }
}

impl Error for Refusal {}

impl fmt::Display for Refusal {
    ghost output = { λ refusal. Some (codes "refused " ++ decimal (number_of refusal)) };

    fn fmt<W: fmt::Write>(&self, f: &mut fmt::Formatter<W>) -> fmt::Result {
        write!(f, "refused {}", u8::from(*self))
    }
}
