// What several subjects of a workbench script read and print alike.
#![tactic(auto)]

pub mod print;
pub mod values;
