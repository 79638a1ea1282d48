// Lines of hexadecimal digits: read into entries, and written from them into a page.
#![tactic(auto)]

pub mod buffer;
pub mod digits;
pub mod entry;
pub mod page;
pub mod read;
pub mod refusal;
pub mod write;

// The most digits of a line.
pub const MOST_DIGITS: usize = 64;
