// The packet commands of a workbench script: what is printed.
#![tactic(auto)]

mod answer;
pub mod run;
