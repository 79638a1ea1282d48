// A session: one yard and one sheet, and the lines that are answered about them.
#![tactic(auto)]

pub mod answer;
pub mod sessions;
