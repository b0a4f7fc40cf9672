// Check kinds of two and of five bytes, and the packets that are run.
#![tactic(auto)]

pub mod kinds;
#[cfg(test)]
mod tests;
