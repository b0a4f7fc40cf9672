// Lines that are printed.
ghost use Rattle.std.specs.Prelude.{◌≡◌, IfOk, Some, string_bytes};
ghost use Rattle.packet.specs.Refusals.{number_of};
ghost use Rattle.answers.specs.Lines.{refusal, burst_text, or_none, wrong, out_of_memory};

use notation::hex::Hex;
use packet::refusal::Refusal;
use script_words::fault::Fault;
use std::alloc::{AllocError, Global};
use std::fmt;

// A refused call. It and `wrong` stay calls: each is one line by Display with its end, which no type would say more plainly.
pub fn refused(heap: Global, why: Refusal) -> Result<String, AllocError>
    ensures { IfOk result (λ s. string_bytes s ≡ refusal (number_of why)) }
{
    format!(in heap; "{why}\n")
}

// A burst that lies in a place, to be printed with its length.
#[derive(Clone, Copy)]
pub struct PlacedBurst<'a> {
    pub bytes: &'a [u8],
}

impl<'a> fmt::Display for PlacedBurst<'a> {
    ghost output = { λ burst. Some (burst_text burst.bytes.now) };

    fn fmt<W: fmt::Write>(&self, f: &mut fmt::Formatter<W>) -> fmt::Result {
        let length = self.bytes.len();
        let burst = Hex::of(self.bytes);
        write!(f, "length={length} burst={burst}")
    }
}

// A value to be printed, or `none`.
#[derive(Clone, Copy)]
pub struct OrNone<T>(pub Option<T>);

impl<T: fmt::Display> fmt::Display for OrNone<T> {
    ghost output = { λ value. or_none T.output value.0 };

    fn fmt<W: fmt::Write>(&self, f: &mut fmt::Formatter<W>) -> fmt::Result {
        match &self.0 {
            Some(value) => value.fmt(f),
            None => f.write_str("none"),
        }
    }
}

// A line that is not carried out.
pub fn wrong(heap: Global, fault: Fault) -> Result<String, AllocError>
    ensures { IfOk result (λ s. string_bytes s ≡ wrong fault) }
{
    let text = fault.text();
    format!(in heap; "error: {text}\n")
}

// What is printed where the machine has no memory for a line.
pub fn out_of_memory() -> &'static str
    ensures { result.now ≡ out_of_memory }
{
    "error: out of memory\n"
}
