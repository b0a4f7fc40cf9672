// Outcomes that are collected, and deliveries that are taken and given back.
ghost use Rattle.std.specs.Prelude.{◌≡◌, length, IfOk, OnErr};
ghost use Rattle.packet.specs.Refusals.{answer};
ghost use Rattle.primary.specs.Outcomes.{outcome_number};
ghost use Rattle.primary.specs.Rules.{oldest};
ghost use Rattle.primary.specs.Table.{collected};
ghost use Rattle.secondary.specs.Station.{taken, take_answer, after_take, place_after, given, give_answer, after_give, handed_back, slips_after};
ghost use Rattle.station.specs.End.{with_primary, with_secondary};
ghost use Rattle.station.specs.Models.{model};
ghost use Rattle.station.specs.Runs.{StaysOut};

use crate::end::End;
use packet::checks::Check;
use packet::refusal::Refusal;
use primary::outcome::Outcome;
use secondary::station::DeliverySlip;

impl<K: Check> End<K> {
    // Tells the oldest outcome that was not collected and frees its buffer, which then keeps no message, or refuses with 20.
    #[tactic(auto, using(crate::proofs::Same::primary_alone))]
    pub fn collect(&mut self) -> Result<Outcome, Refusal>
        ensures value { answer outcome_number result ≡ oldest (model self.old).primary.outcomes }
        ensures after { model self.new ≡ with_primary (collected (model self.old).primary) (model self.old) }
        ensures unchanged { OnErr result (self.new ≡ self.old) }
    {
        self.primary.collect()
    }

    // Copies the oldest delivery to the front of `place`; its length, and the slip to give it back by. Refused with 21 to 23.
    #[tactic(auto, using(crate::proofs::Same::secondary_alone))]
    pub fn take(&mut self, place: &mut [u8]) -> Result<(usize, DeliverySlip), Refusal>
        ensures value { answer taken result ≡ take_answer (length place.old) (model self.old).secondary }
        ensures after { model self.new ≡ with_secondary (after_take (length place.old) (model self.old).secondary) (model self.old) }
        ensures copied { place.new ≡ place_after (model self.old).secondary place.old }
        ensures unchanged { OnErr result (self.new ≡ self.old) }
        ensures out { IfOk result (λ x. StaysOut K.Check.LEN K.Check.meaning x.1.line x.1.buffer (model self.new)) }
    {
        self.secondary.take(place)
    }

    // Frees the buffer of the slip, or hands a wrong slip back, with 24.
    #[tactic(auto, using(crate::proofs::Same::secondary_alone))]
    pub fn give_back(&mut self, slip: DeliverySlip) -> Result<(), (Refusal, DeliverySlip)>
        ensures value { given result ≡ give_answer slip.line slip.buffer (model self.old).secondary }
        ensures after { model self.new ≡ with_secondary (after_give slip.line slip.buffer (model self.old).secondary) (model self.old) }
        ensures handed { handed_back result ≡ slips_after (model self.old).secondary slip }
        ensures unchanged { OnErr result (self.new ≡ self.old) }
    {
        self.secondary.give_back(slip)
    }
}
