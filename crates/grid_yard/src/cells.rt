// Tests on the cells of a grid.
ghost use Rattle.std.specs.Prelude.{◌≡◌, ◌*◌, ◌<◌, ◌≤◌, length};
ghost use Rattle.grid_yard.specs.Times.{adjacent, closed_cell, set_bit, step};

use crate::plan::Plan;

// How many cells a word closes: one a bit.
pub(crate) const CELLS_IN_WORD: u16 = 64;

// Whether bit k of the word is set, counted from the lowest.
fn is_set(word: u64, k: u16) -> bool
    requires { k < 64 }
    ensures { result ≡ set_bit word k }
{
    (word >> k) & 1 == 1
}

// Whether the cell's bit is set.
pub(crate) fn is_closed(words: &[u64], cell: u16) -> bool
    requires { cell < 64 * length words.now }
    ensures { result ≡ closed_cell words.now cell }
{
    is_set(
        words[usize::from(cell / CELLS_IN_WORD)],
        cell % CELLS_IN_WORD,
    )
}

// Whether the two numbers differ by one.
fn is_adjacent(a: u16, b: u16) -> bool
    ensures { result ≡ adjacent a b }
{
    a.abs_diff(b) == 1
}

// The travel time between two cells of the grid, where they touch by a side.
pub(crate) fn step_time(plan: Plan, from: u16, to: u16) -> Option<u16>
    requires { 1 ≤ plan.columns }
    ensures { result ≡ step plan from to }
{
    let (row, column) = (from / plan.columns, from % plan.columns);
    let (other_row, other_column) = (to / plan.columns, to % plan.columns);
    if row == other_row && is_adjacent(column, other_column) {
        return Some(plan.along);
    }
    if column == other_column && is_adjacent(row, other_row) {
        return Some(plan.across);
    }
    None
}
