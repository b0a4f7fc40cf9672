//! An opened line: two ends of one kind of check, joined over two media that each call is lent.
#![tactic(auto)]

mod at_side;
mod opened;
mod opening;
mod questions;
mod report;

pub use opened::Line;
pub use report::{LineReport, Opened};
