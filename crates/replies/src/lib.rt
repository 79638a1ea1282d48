// Replies, written as lines into a page.
#![tactic(auto)]

mod list;
pub mod reply;

// The most bytes of a reply to a line: a pass with the arrivals at 1,024 stops.
pub const LONGEST_REPLY: usize = 8198;

// The bytes of the reply of a refusal: its number, and the two fields for what it tells.
pub const REFUSAL_REPLY: usize = 10;
