// The two ends of a workbench, with the slips that it keeps.
#![tactic(auto)]

mod calls;
pub mod ends;
pub mod named;
mod of_kind;
mod slips;
