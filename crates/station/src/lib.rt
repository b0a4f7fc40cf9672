// One end of an ALC/FD line: a primary and a secondary station with their settings.
#![tactic(auto)]

pub mod end;
pub mod report;
pub mod worked;
