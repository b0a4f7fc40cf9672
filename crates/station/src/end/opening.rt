// The opening of an end, and its settings.
ghost use Rattle.std.specs.Prelude.{◌≡◌, IfOk, OnErr};
ghost use Rattle.packet.specs.Refusals.{answer};
ghost use Rattle.settings.specs.Frame.{told as set_told};
ghost use Rattle.station.specs.End.{opened, opening_of, change, set_by, burst, written_over, placed_by, seen, awaiting};
ghost use Rattle.station.specs.Models.{model};
ghost use Rattle.station.specs.Reports.{told, telling};
ghost use Rattle.station.specs.Runs.{LeaveInOrder};

use crate::end::End;
use crate::report::Report;
use packet::checks::Check;
use packet::refusal::Refusal;
use primary::event::Step;
use primary::station::{Primary, State};
use secondary::station::Secondary;
use settings::settings::parse;
use settings::values::Settings;
use std::marker::PhantomData;

impl<K: Check> End<K> {
    // Opens an end on the line of this number, with the settings as they are: ENQ is sent.
    #[tactic(auto, using(crate::proofs::Orders::in_order))]
    pub fn open(line: u8, settings: Settings, place: &mut [u8; 104]) -> (End<K>, Report)
        ensures value { told result.1 ≡ telling K.Check.meaning (opened line settings) }
        ensures made { model result.0 ≡ (opened line settings).next }
        ensures in_order { LeaveInOrder K.Check.LEN K.Check.meaning (model result.0) }
        ensures placed { place.new ≡ written_over (burst K.Check.meaning (opened line settings).sent) place.old }
    {
        let end = End {
            of: PhantomData,
            settings,
            primary: Primary::open(),
            secondary: Secondary::new(line),
        };
        let report = end.command(Step::enq(), place);
        (end, report)
    }

    // Opens an end with the settings in a frame, which can be refused with 8 to 13.
    pub fn new(line: u8, frame: &[u8], place: &mut [u8; 104]) -> Result<(End<K>, Report), Refusal>
        ensures value { answer (λ x. told x.1) result ≡ seen (telling K.Check.meaning) (opening_of line frame.now) }
        ensures made { answer (λ x. model x.0) result ≡ seen (λ d. d.next) (opening_of line frame.now) }
        ensures in_order { IfOk result (λ x. LeaveInOrder K.Check.LEN K.Check.meaning (model x.0)) }
        ensures placed { place.new ≡ placed_by K.Check.meaning (opening_of line frame.now) place.old }
    {
        let settings = parse(frame)?;
        Ok(End::open(line, settings, place))
    }

    // Whether the primary station waits for an answer.
    fn awaiting(&self) -> bool
        ensures { result ≡ awaiting (model self.now).primary.phase }
    {
        matches!(self.primary.status().state, State::Waiting | State::Asking)
    }

    // All four settings change together, or none does: refused with 8 to 15.
    pub fn change_settings(&mut self, frame: &[u8]) -> Result<(), Refusal>
        ensures value { answer (λ u. u) result ≡ set_told (change (model self.old) frame.now) }
        ensures after { model self.new ≡ set_by (change (model self.old) frame.now) (model self.old) }
        ensures unchanged { OnErr result (self.new ≡ self.old) }
    {
        let awaiting = self.awaiting();
        let held = self.secondary.held();
        self.settings.change(frame, awaiting, held)
    }
}
