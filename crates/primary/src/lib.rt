// The primary station of an ALC/FD line: it sends commands, waits for their answers and keeps the messages that it was given.
#![tactic(auto)]

mod buffers;
pub mod event;
pub mod outcome;
pub mod station;
