// Taking a delivery and giving it back. `unchanged` speaks of a call and not of a value, so it stands at each.
ghost use Rattle.std.specs.Prelude.{◌≡◌, length, IfOk, OnErr};
ghost use Rattle.packet.specs.Refusals.{answer, judged};
ghost use Rattle.secondary.specs.Laws.{StaysOut};
ghost use Rattle.secondary.specs.Station.{model, taken, take_rules, take_answer, after_take, place_after, given, give_answer, after_give, handed_back, slips_after, slip_out};

use super::{DeliverySlip, Secondary};
use packet::refusal::Refusal;

impl Secondary {
    // Refuses a take into a place of `size` bytes.
    fn may_take(&self, size: usize) -> Result<(), Refusal>
        ensures { answer (λ u. u) result ≡ judged (take_rules size (model self.now)) tt }
    {
        if size < 96 {
            return Err(Refusal::PlaceTooShort);
        }
        if self.out {
            return Err(Refusal::DeliveryOut);
        }
        if self.held() == 0 {
            return Err(Refusal::NoDelivery);
        }
        Ok(())
    }

    // Copies the oldest delivery to the front of `place`; its length, and the slip to give it back by.
    pub fn take(&mut self, place: &mut [u8]) -> Result<(usize, DeliverySlip), Refusal>
        ensures value { answer taken result ≡ take_answer (length place.old) (model self.old) }
        ensures after { model self.new ≡ after_take (length place.old) (model self.old) }
        ensures copied { place.new ≡ place_after (model self.old) place.old }
        ensures unchanged { OnErr result (self.new ≡ self.old) }
        ensures out { IfOk result (λ x. StaysOut x.1.line x.1.buffer (model self.new)) }
    {
        self.may_take(place.len())?;
        let length = self.deliveries.copy_oldest(place);
        self.out = true;
        let slip = DeliverySlip {
            line: self.line,
            buffer: self.deliveries.oldest(),
        };
        Ok((length, slip))
    }

    // Whether the slip is that of the delivery that is out.
    fn is_out(&self, slip: &DeliverySlip) -> bool
        ensures { result ≡ slip_out slip.now.line slip.now.buffer (model self.now) }
    {
        self.buffer_out()
            .is_some_and(|buffer| slip.line == self.line && slip.buffer == buffer)
    }

    // Frees the buffer of the slip, or hands a wrong slip back.
    pub fn give_back(&mut self, slip: DeliverySlip) -> Result<(), (Refusal, DeliverySlip)>
        ensures value { given result ≡ give_answer slip.line slip.buffer (model self.old) }
        ensures after { model self.new ≡ after_give slip.line slip.buffer (model self.old) }
        ensures handed { handed_back result ≡ slips_after (model self.old) slip }
        ensures unchanged { OnErr result (self.new ≡ self.old) }
    {
        if !self.is_out(&slip) {
            return Err((Refusal::WrongSlip, slip));
        }
        let DeliverySlip { line: _, buffer: _ } = slip;
        self.deliveries.release();
        self.out = false;
        Ok(())
    }
}
