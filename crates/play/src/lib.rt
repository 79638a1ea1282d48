// Whole runs: a list of calls played on a new sheet, with its answers as values.
#![tactic(auto)]

pub mod answers;
pub mod calls;
pub mod playing;
pub mod verdicts;
