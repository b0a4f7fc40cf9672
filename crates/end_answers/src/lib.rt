// What is printed for calls on an end of a line, and for its settings.
#![tactic(auto)]

pub mod printed_settings;
pub mod report;
pub mod state;
