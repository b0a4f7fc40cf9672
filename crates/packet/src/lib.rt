// ALC/FD packets: the check kinds, the reader and the writer.
#![tactic(auto)]

pub mod checks;
pub mod letter;
pub mod number;
pub mod reader;
pub mod refusal;
pub mod sum;
pub mod worked;
pub mod writer;
pub mod xor;
