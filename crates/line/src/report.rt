//! What a call on a line returns.
use crate::opened::Line;
use medium::offer::Offer;
use packet::checks::Check;
use packet::letter::Letter;
use station::report::Report;

/// What a side's end did, what its outgoing medium answered where a packet was sent, and the letter of the burst that arrived
/// where one did.
#[derive(Clone, Copy, Debug, PartialEq, Eq)]
pub struct LineReport {
    pub end: Report,
    pub offer: Option<Offer>,
    pub heard: Option<Letter>,
}

/// A line that was opened, and what its two ends did.
#[derive(Drop)]
pub struct Opened<K: Check> {
    pub line: Line<K>,
    pub west: LineReport,
    pub east: LineReport,
}
