// The workbench: what is printed for a line of a script, and what it leaves.
#![tactic(auto)]

pub mod joined;
mod line_answers;
mod line_calls;
pub mod run;
