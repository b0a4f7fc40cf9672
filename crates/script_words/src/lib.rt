// What the lines of a workbench script have in common: their words, and what is wrong with them.
#![tactic(auto)]

pub mod arguments;
pub mod fault;
pub mod words;
