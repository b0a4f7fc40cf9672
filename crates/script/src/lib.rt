// What a line of a workbench script asks for.
#![tactic(auto)]

pub mod command;
pub mod line;
