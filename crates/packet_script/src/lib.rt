// What a line of a workbench script asks for that begins `packet`.
#![tactic(auto)]

pub mod call;
