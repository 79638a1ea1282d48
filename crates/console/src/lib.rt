// What the programs read and write: the file of the yard, standard input and standard output.
#![tactic(auto)]

pub mod files;
pub mod input;
pub mod judge_lines;
