// Judging: whether a sheet can be driven in a yard under a following rule, and how early.
#![tactic(auto)]

pub mod judging;
mod legs;
mod marks;
mod meetings;
pub mod refusal;
mod routes;
mod tables;
mod waits;
