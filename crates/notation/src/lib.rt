// How bytes, numbers and words stand in a line of text.
#![tactic(auto)]

pub mod hex;
pub mod number;
pub mod words;
