// Calls on an end of any kind, and what is printed for them.
ghost use Rattle.std.specs.Prelude.{◌≡◌, [], IfOk, string_bytes};
ghost use Rattle.primary.specs.Rules.{oldest};
ghost use Rattle.primary.specs.Table.{collected};
ghost use Rattle.station.specs.End.{submission, timeout, arrival, change, left_by, set_by, with_primary};
ghost use Rattle.station.specs.Models.{model};
ghost use Rattle.end_answers.specs.Reports.{done_line, outcome_line, set_line};

use answers::print::refused;
use answers::values::FILL;
use end_answers::report::{PLACE, reported};
use packet::checks::Check;
use station::end::End;
use std::alloc::{AllocError, Global};

// One function for each call: over a closure the contract would be the closure's, and not that of the call.
pub(crate) fn submit<K: Check>(
    heap: Global,
    end: &mut End<K>,
    message: &[u8],
) -> Result<String, AllocError>
    ensures printed { IfOk result (λ s. string_bytes s ≡ done_line K.Check.meaning [] (submission (model end.old) message.now)) }
    ensures after { model end.new ≡ left_by (submission (model end.old) message.now) (model end.old) }
{
    let mut place = [FILL; PLACE];
    let result = end.submit(message, &mut place);
    reported(heap, "", result, &place)
}

pub(crate) fn timeout<K: Check>(heap: Global, end: &mut End<K>) -> Result<String, AllocError>
    ensures printed { IfOk result (λ s. string_bytes s ≡ done_line K.Check.meaning [] (timeout (model end.old))) }
    ensures after { model end.new ≡ left_by (timeout (model end.old)) (model end.old) }
{
    let mut place = [FILL; PLACE];
    let report = end.timeout(&mut place);
    reported(heap, "", Ok(report), &place)
}

pub(crate) fn arrive<K: Check>(
    heap: Global,
    end: &mut End<K>,
    burst: &[u8],
) -> Result<String, AllocError>
    ensures printed { IfOk result (λ s. string_bytes s ≡ done_line K.Check.meaning [] (arrival K.Check.LEN K.Check.meaning (model end.old) burst.now)) }
    ensures after { model end.new ≡ left_by (arrival K.Check.LEN K.Check.meaning (model end.old) burst.now) (model end.old) }
{
    let mut place = [FILL; PLACE];
    let result = end.arrive(burst, &mut place);
    reported(heap, "", result, &place)
}

pub(crate) fn collect<K: Check>(heap: Global, end: &mut End<K>) -> Result<String, AllocError>
    ensures printed { IfOk result (λ s. string_bytes s ≡ outcome_line (oldest (model end.old).primary.outcomes)) }
    ensures after { model end.new ≡ with_primary (collected (model end.old).primary) (model end.old) }
{
    match end.collect() {
        Ok(outcome) => {
            let number = u8::from(outcome);
            format!(in heap; "outcome={number}\n")
        }
        Err(why) => refused(heap, why),
    }
}

pub(crate) fn change_settings<K: Check>(
    heap: Global,
    end: &mut End<K>,
    frame: &[u8],
) -> Result<String, AllocError>
    ensures printed { IfOk result (λ s. string_bytes s ≡ set_line (change (model end.old) frame.now)) }
    ensures after { model end.new ≡ set_by (change (model end.old) frame.now) (model end.old) }
{
    match end.change_settings(frame) {
        Ok(()) => String::from_str(heap, "set\n"),
        Err(why) => refused(heap, why),
    }
}
