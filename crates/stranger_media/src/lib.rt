// Media of a user's own, each by the meaning that every medium has: one that loses everything, one that alters every burst, and
// a layer that loses every other one.
#![tactic(auto)]

pub mod altering;
pub mod alternating;
pub mod losing;
pub mod pointed;
pub mod through;
