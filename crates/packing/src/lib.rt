// A medium that packs its bursts into a ring of bytes.
#![tactic(auto)]

mod letters;
pub mod packed;
pub mod packed_medium;
mod rows;
