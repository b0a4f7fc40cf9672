// The start and the end of a script.
ghost use Rattle.std.specs.Prelude.{◌≡◌, Some, None};
ghost use Rattle.station.specs.Models.{model as end_model};
ghost use Rattle.end_bench.specs.Bench.{empty};
ghost use Rattle.end_bench.specs.Calls.{given};
ghost use Rattle.end_bench.specs.Closing.{closed, GivenBack, given_to, Fits, GivenToOne};
ghost use Rattle.end_bench.specs.Fair.{numbers, kept, lent_by, lent};
ghost use Rattle.end_bench.specs.Models.{model};
ghost use Rattle.end_bench.specs.Named.{open_end};

use super::Ends;
use crate::named::OpenEnd;
use packet::checks::Check;
use secondary::station::DeliverySlip;
use station::end::End;

impl Ends {
    // No end is open, and no slip is kept.
    pub fn new() -> Ends
        ensures { model result ≡ empty }
    {
        Ends {
            a: None,
            b: None,
            a_slip: None,
            b_slip: None,
        }
    }

    // Gives every slip that is kept back, to the end that it fits: the ends have no delivery out then.
    pub fn close(self) -> (Option<OpenEnd>, Option<OpenEnd>)
        ensures a { open_end result.0 ≡ closed (model self).a }
        ensures b { open_end result.1 ≡ closed (model self).b }
        ensures none_out { (lent (open_end result.0) ≡ None) × (lent (open_end result.1) ≡ None) }
    {
        let Ends {
            mut a,
            mut b,
            a_slip,
            b_slip,
        } = self;
        give_to_one(&mut a, &mut b, a_slip);
        give_to_one(&mut a, &mut b, b_slip);
        (a, b)
    }
}

// Gives a slip back to the one of two ends that it fits.
#[tactic(auto, using(crate::proofs::Givings::none_given, crate::proofs::Givings::first_given))]
fn give_to_one(a: &mut Option<OpenEnd>, b: &mut Option<OpenEnd>, slip: Option<DeliverySlip>)
    requires { Fits (kept slip) (open_end a.old) (open_end b.old) }
    ensures { GivenToOne (kept slip) (open_end a.old) (open_end b.old) (open_end a.new) (open_end b.new) }
{
    let Some(slip) = slip else {
        return;
    };
    if let Err(slip) = give_back(a, slip) {
        give_back(b, slip).unwrap();
    }
}

// Gives a slip back, or hands it back.
fn give_back(end: &mut Option<OpenEnd>, slip: DeliverySlip) -> Result<(), DeliverySlip>
    ensures fits { GivenBack result (numbers slip) (lent (open_end end.old)) }
    ensures after { open_end end.new ≡ given_to (numbers slip) (open_end end.old) }
{
    match end {
        None => Err(slip),
        Some(OpenEnd::Sum(open)) => give_back_to(open, slip),
        Some(OpenEnd::Xor(open)) => give_back_to(open, slip),
    }
}

fn give_back_to<K: Check>(end: &mut End<K>, slip: DeliverySlip) -> Result<(), DeliverySlip>
    ensures fits { GivenBack result (numbers slip) (lent_by (end_model end.old).secondary) }
    ensures after { end_model end.new ≡ given (Some (numbers slip)) (end_model end.old) }
{
    end.give_back(slip).map_err(|(_, slip)| slip)
}
