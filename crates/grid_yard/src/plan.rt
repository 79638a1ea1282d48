// What a grid is set out with, beside the words that close cells.

// The most rows, and the most columns.
pub const LONGEST_SIDE: u16 = 64;

#[derive(Clone, Copy, PartialEq, Eq, Debug)]
pub struct Plan {
    pub rows: u16,
    pub columns: u16,
    // The travel time between neighbours in a row.
    pub along: u16,
    // The travel time between neighbours in a column.
    pub across: u16,
}
