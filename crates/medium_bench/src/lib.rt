// The medium commands of a workbench script: what is printed, and what is left.
#![tactic(auto)]

mod answer;
pub mod run;
