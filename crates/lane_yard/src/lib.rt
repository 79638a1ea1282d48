// The lane yard: a yard whose lanes are a list of records.
#![tactic(auto)]

mod checks;
pub mod lane;
pub mod refusal;
mod search;
pub mod yards;
