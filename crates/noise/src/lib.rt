// Media that alter some of their bursts or lose some.
#![tactic(auto)]

pub mod lossy;
pub mod noisy;
pub mod pattern;
