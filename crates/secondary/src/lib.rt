// The secondary station of one end of a line, and the slips of its deliveries.
#![tactic(auto)]

mod deliveries;
pub mod reading;
pub mod reply;
pub mod station;
