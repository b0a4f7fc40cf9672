// What is printed for a medium's answers.
ghost use Rattle.std.specs.Prelude.{◌≡◌, IfOk, IfSome, string_bytes};
ghost use Rattle.medium_bench.specs.Printed.{said};

use answers::print::wrong;
use script_words::fault::Fault;
use std::alloc::{AllocError, Global};
use std::fmt::Display;

// What a medium answers, where it is made.
pub(crate) fn answered<T: Display + Drop>(
    heap: Global,
    answer: Option<T>,
) -> Result<String, AllocError>
    ensures { IfOk result (λ s. IfSome (said T.output answer) (λ text. string_bytes s ≡ text)) }
{
    match answer {
        Some(answer) => format!(in heap; "{answer}\n"),
        None => wrong(heap, Fault::NoMedium),
    }
}
