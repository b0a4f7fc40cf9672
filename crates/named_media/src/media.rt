// The media of a workbench.
ghost use Rattle.std.specs.Prelude.{◌≡◌, ◌≤◌, length, None};
ghost use Rattle.std.specs.Option.{option_map, unwrap_or};
ghost use Rattle.medium.specs.Bursts.{first};
ghost use Rattle.named_media.specs.Chosen.{memory};
ghost use Rattle.named_media.specs.Holding.{holding};
ghost use Rattle.named_media.specs.Media.{named_by, under_way, offer_answer, made_by, offered_to, taken_from, taken_to};
ghost use Rattle.named_media.specs.Model.{model};

use crate::chosen::ChosenMedium;
use crate::holds::Holds;
use medium::class::Class;
use medium::offer::Offer;
use medium::{LONGEST, Medium};
use medium_script::spec::Spec;

// The medium of a name, once it is made.
#[derive(Drop)]
pub struct NamedMedium<'a, 'p> {
    is_made: bool,
    medium: ChosenMedium<'a, 'p>,
}

impl<'a, 'p> NamedMedium<'a, 'p> {
    // A name without a medium, over the memory of this one.
    pub fn over(medium: ChosenMedium<'a, 'p>) -> Self
        ensures { model result ≡ named_by None (memory medium.entry) }
    {
        NamedMedium {
            is_made: false,
            medium,
        }
    }

    // Makes a medium; one that the name had is gone.
    pub fn make(&mut self, spec: Spec)
        ensures { model self.new ≡ made_by spec (model self.old) }
    {
        self.is_made = true;
        self.medium.restart(spec);
    }

    // Offers a burst; none where no medium is made.
    pub fn offer(&mut self, burst: &[u8]) -> Option<Offer>
        ensures answer { result ≡ offer_answer burst.now (model self.old) }
        ensures after { model self.new ≡ offered_to burst.now (model self.old) }
    {
        if !self.is_made {
            return None;
        }
        Some(self.medium.offer(burst))
    }

    // Takes the oldest burst to the start of the place, and tells its length: 0 where none is under way, as `Medium::take` does.
    pub fn take(&mut self, place: &mut [u8; LONGEST]) -> Option<usize>
        ensures value { result ≡ option_map (λ bs. length (first bs)) (under_way (model self.old)) }
        ensures bound { unwrap_or result 0 ≤ 104 }
        ensures place { place.new ≡ taken_to (under_way (model self.old)) place.old }
        ensures after { model self.new ≡ taken_from (model self.old) }
    {
        if !self.is_made {
            return None;
        }
        Some(self.medium.take(place))
    }

    // How many bursts are under way.
    pub fn count(&self) -> Option<usize>
        ensures { result ≡ option_map length (under_way (model self.now)) }
    {
        if !self.is_made {
            return None;
        }
        Some(self.medium.count())
    }

    // Whether commands and whether answers are under way.
    pub fn holds(&self) -> Option<Holds>
        ensures { result ≡ option_map holding (under_way (model self.now)) }
    {
        if !self.is_made {
            return None;
        }
        Some(Holds {
            commands: self.medium.holds(Class::Command),
            answers: self.medium.holds(Class::Answer),
        })
    }
}

// A medium for each name.
#[derive(Drop)]
pub struct Media<'a, 'p> {
    pub m: NamedMedium<'a, 'p>,
    pub n: NamedMedium<'a, 'p>,
}
