// A medium of any kind, and the media of a workbench, each by its name.
#![tactic(auto)]

pub mod chosen;
pub mod holds;
pub mod media;
