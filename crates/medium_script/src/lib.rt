// What a line of a workbench script asks for that begins `medium`.
#![tactic(auto)]

pub mod call;
pub mod spec;
