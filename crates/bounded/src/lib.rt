// Lists with a limit, for programs that take all their memory before they begin.
#![tactic(auto)]

mod list;
#[cfg(test)]
mod tests;

pub use list::{BoundedVec, TooMany};
