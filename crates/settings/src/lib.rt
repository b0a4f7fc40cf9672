// The settings of one end of a line, and the frame that they arrive in.
#![tactic(auto)]

pub mod settings;
pub mod values;
