// Any of the kinds of yard as one type, and any of the following rules as one type, so that a list can hold several.
#![tactic(auto)]

pub mod rules;
pub mod yards;
