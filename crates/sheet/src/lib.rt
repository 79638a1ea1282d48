// A sheet: a route for each carrier and, wherever two routes meet, who goes first.
#![tactic(auto)]

pub mod limits;
pub mod records;
pub mod refusal;
pub mod sheets;
