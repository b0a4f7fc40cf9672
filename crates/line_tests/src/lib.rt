//! A line as its user leads it.
#![tactic(auto)]

pub mod early;
pub mod led;
#[cfg(test)]
mod tests;
