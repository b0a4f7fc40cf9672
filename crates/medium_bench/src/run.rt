// Carrying out a medium command.
ghost use Rattle.std.specs.Prelude.{◌≡◌, IfOk, string_bytes};
ghost use Rattle.medium_script.specs.Calls.{offer, take};
ghost use Rattle.medium_script.specs.Told.{call_of, command_of};
ghost use Rattle.script_words.specs.Told.{bytes_of};
ghost use Rattle.named_media.specs.Model.{model, models};
ghost use Rattle.medium_bench.specs.Printed.{call_line, printed};
ghost use Rattle.answers.specs.Leaving.{Left};
ghost use Rattle.medium_bench.specs.Leaving.{after_call, after};

use crate::answer::answered;
use answers::print::PlacedBurst;
use answers::values;
use medium::LONGEST;
use medium_script::call::{MediumCall, MediumCommand, Name};
use named_media::media::{Media, NamedMedium};
use script_words::words::Bytes;
use std::alloc::{AllocError, Global};

// The call goes to the medium that the command names; the other one stays as it is.
pub fn run(
    heap: Global,
    media: &mut Media<'_, '_>,
    command: MediumCommand<'_>,
) -> Result<String, AllocError>
    ensures answer { IfOk result (λ s. string_bytes s ≡ printed (models media.old) (command_of command.entry)) }
    ensures after { Left result (models media.old) (after (command_of command.entry) (models media.old)) (models media.new) }
{
    match command.name {
        Name::M => run_call(heap, &mut media.m, command.call),
        Name::N => run_call(heap, &mut media.n, command.call),
    }
}

fn run_call(
    heap: Global,
    medium: &mut NamedMedium<'_, '_>,
    call: MediumCall<'_>,
) -> Result<String, AllocError>
    ensures answer { IfOk result (λ s. string_bytes s ≡ call_line (model medium.old) (call_of call.entry)) }
    ensures after { Left result (model medium.old) (after_call (call_of call.entry) (model medium.old)) (model medium.new) }
{
    match call {
        MediumCall::Make(spec) => {
            medium.make(spec);
            String::from_str(heap, "made\n")
        }
        MediumCall::Offer(burst) => offer(heap, medium, burst),
        MediumCall::Take => take(heap, medium),
        MediumCall::Count => answered(heap, medium.count()),
        MediumCall::Holds => answered(heap, medium.holds()),
    }
}

fn offer(
    heap: Global,
    medium: &mut NamedMedium<'_, '_>,
    burst: Bytes<'_>,
) -> Result<String, AllocError>
    ensures answer { IfOk result (λ s. string_bytes s ≡ call_line (model medium.old) (offer (bytes_of burst.entry))) }
    ensures after { Left result (model medium.old) (after_call (offer (bytes_of burst.entry)) (model medium.old)) (model medium.new) }
{
    let burst = values::bytes(heap, burst)?;
    answered(heap, medium.offer(&burst))
}

fn take(heap: Global, medium: &mut NamedMedium<'_, '_>) -> Result<String, AllocError>
    ensures answer { IfOk result (λ s. string_bytes s ≡ call_line (model medium.old) take) }
    ensures after { Left result (model medium.old) (after_call take (model medium.old)) (model medium.new) }
{
    let mut place = [values::FILL; LONGEST];
    let length = medium.take(&mut place);
    answered(heap, length.map(|n| PlacedBurst { bytes: &place[..n] }))
}
