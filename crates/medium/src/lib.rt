// A carrier of bursts in one direction: what every medium means, and the plainest one, a queue.
#![tactic(auto)]

ghost use Rattle.std.specs.Prelude.{◌≡◌, ℕ, ◌≤◌, List, [], ◌++◌, length, drop};
ghost use Rattle.std.specs.List.{AllByRecursion};
ghost use Rattle.medium.specs.declared.offer.Offer.{Offer as Answer};
ghost use Rattle.medium.specs.Bursts.{Carried, first, some_letter};
ghost use Rattle.medium.specs.Classes.{letters};
ghost use Rattle.medium.specs.Offered.{Offered};

pub mod burst;
pub mod class;
pub mod lent;
pub mod offer;
pub mod queue;
pub mod record;

use class::Class;
use offer::Offer;

// The most bytes of a burst.
pub const LONGEST: usize = 104;

// A medium means the list of bursts under way, oldest first, each of 1 to 104 bytes.
pub trait Medium {
    // The bursts under way.
    ghost bursts: { Self → List (List ℕ) };

    // What an offer does here, exactly: the medium, the burst, the answer and the medium then.
    ghost offers: { Self → List ℕ → Answer → Self → Type 0 };

    // What a take leaves here of all but the bursts.
    ghost takes: { Self → Self → Type 0 };

    // Puts a burst under way, whole or spoilt.
    fn offer(&mut self, burst: &[u8]) -> Offer
        ensures meaning { Offered (bursts self.old) burst.now result (bursts self.new) }
        ensures exact { offers self.old burst.now result self.new };

    // How many bursts are under way. Each has 1 to 104 bytes.
    fn count(&self) -> usize
        ensures value { result ≡ length (bursts self.now) }
        ensures carried { AllByRecursion Carried (bursts self.now) };

    // Whether a burst under way has a letter of the class.
    fn holds(&self, class: Class) -> bool
        ensures { result ≡ some_letter (letters class) (bursts self.now) };

    // Takes the first burst out, to the start of the place, and tells its length: 0 exactly
    // where there is none, a rule of the product that needs no Option, as no burst is empty; all
    // is then as it was.
    fn take(&mut self, place: &mut [u8; LONGEST]) -> usize
        ensures value { result ≡ length (first (bursts self.old)) }
        ensures bound { result ≤ 104 }
        ensures none { result ≡ 0 → bursts self.old ≡ [] }
        ensures place { place.new ≡ first (bursts self.old) ++ drop result place.old }
        ensures after { bursts self.new ≡ drop 1 (bursts self.old) }
        ensures unchanged { result ≡ 0 → self.new ≡ self.old }
        ensures exact { takes self.old self.new };

    // Each burst under way has 1 to 104 bytes.
    ghost all_carried: { (m : Self) → AllByRecursion Carried (bursts m) };
}
