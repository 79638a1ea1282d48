// The grid yard: a yard of cells in rows and columns, some of them closed.
#![tactic(auto)]

mod cells;
mod checks;
pub mod plan;
pub mod refusal;
pub mod yards;
