// What a line of a workbench script asks of settings and of ends.
#![tactic(auto)]

pub mod end;
pub mod settings;
