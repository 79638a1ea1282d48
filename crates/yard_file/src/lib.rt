// The file of a yard: lines of lanes, read to the end before any lane is laid.
#![tactic(auto)]

pub mod files;
pub mod refusal;
