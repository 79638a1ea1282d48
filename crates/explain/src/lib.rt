// Explaining a sheet in words: what each line says, what came of it, and why.
// The writer `out` is passed to each function that writes, with the line where it shows one: a type for the two would
// only be made to be taken apart.
#![tactic(auto)]

mod answers;
mod cause;
mod causes;
mod faults;
mod judge_cause;
mod judge_causes;
mod keys;
mod lag;
mod lane_fault;
pub mod program;
mod records;
mod rings;
mod sheet_lags;
mod site;
mod text;
mod timetables;
mod yards;
