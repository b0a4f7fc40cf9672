// Reading a settings frame, and changing the settings by one.
ghost use Rattle.std.specs.Prelude.{◌≡◌, IfOk, OnErr, OnOk};
ghost use Rattle.packet.specs.Refusals.{answer};
ghost use Rattle.settings.specs.Frame.{settings_of, change_of, settings_after, told, InRange, frame_of};

use crate::values::Settings;
use packet::refusal::Refusal;

const VERSION: u8 = 1;

// How many bytes follow the length.
const LENGTH: u16 = 6;

// The settings in a frame, or a refusal with 8 to 13. A TryFrom would be no plainer: here its three promises have names.
pub fn parse(frame: &[u8]) -> Result<Settings, Refusal>
    ensures value { answer (λ s. s) result ≡ settings_of frame.now }
    ensures ranges { IfOk result InRange }
    ensures determined { IfOk result (λ s. frame.now ≡ frame_of s) }
{
    take_apart(frame)
}

// What `parse` answers. Apart from it, so that the laws are proved at one return, from this one equation.
fn take_apart(frame: &[u8]) -> Result<Settings, Refusal>
    ensures { answer (λ s. s) result ≡ settings_of frame.now }
{
    let &[
        version,
        l1,
        l0,
        e1,
        e0,
        d1,
        d0,
        attempt_limit,
        receive_limit,
    ] = frame
    else {
        return Err(Refusal::FrameLength);
    };
    if version != VERSION {
        return Err(Refusal::FrameVersion);
    }
    if u16::from_be_bytes([l1, l0]) != LENGTH {
        return Err(Refusal::FrameLengthField);
    }
    let enq_period = u16::from_be_bytes([e1, e0]);
    let data_period = u16::from_be_bytes([d1, d0]);
    if !(10..=6000).contains(&enq_period) || !(10..=6000).contains(&data_period) {
        return Err(Refusal::Period);
    }
    if !(1..=20).contains(&attempt_limit) {
        return Err(Refusal::AttemptLimit);
    }
    if !(1..=8).contains(&receive_limit) {
        return Err(Refusal::ReceiveLimit);
    }
    Ok(Settings {
        enq_period,
        data_period,
        attempt_limit,
        receive_limit,
    })
}

impl Settings {
    // Takes all four values from the frame, or none. `awaiting` says that the primary station waits for an answer, and
    // `held` how many deliveries the secondary station holds.
    pub fn change(&mut self, frame: &[u8], awaiting: bool, held: u8) -> Result<(), Refusal>
        ensures value { answer (λ u. u) result ≡ told (change_of frame.now awaiting held) }
        ensures after { self.new ≡ settings_after (change_of frame.now awaiting held) self.old }
        ensures unchanged { OnErr result (self.new ≡ self.old) }
        ensures ranges { OnOk result (InRange self.new) }
    {
        let settings = parse(frame)?;
        if awaiting {
            return Err(Refusal::AnswerAwaited);
        }
        if settings.receive_limit < held {
            return Err(Refusal::DeliveriesHeld);
        }
        *self = settings;
        Ok(())
    }
}
