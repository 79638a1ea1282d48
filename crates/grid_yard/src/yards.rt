// The grid yard.
ghost use Rattle.std.specs.Prelude.{◌*◌, ◌≤◌};
ghost use Rattle.grid_yard.specs.Faults.{Covered, Timed};

use crate::plan::Plan;
use bounded::BoundedVec;

mod calls;

// The most words that the cells of a grid need.
pub const MOST_WORDS: usize = 64;

// A yard of cells in rows and columns. Cell number row × columns + column is a place. Open cells that touch by a side
// are joined by lanes both ways.
// Memory for the largest grid is taken when it is made, so that setting out never needs memory.
#[derive(Drop)]
pub struct GridYard {
    plan: Plan,
    closed: BoundedVec<u64, MOST_WORDS>,
    ghost few_rows: { plan.rows ≤ 64 },
    ghost few_columns: { plan.columns ≤ 64 },
    ghost few_cells: { plan.rows * plan.columns ≤ 4096 },
    ghost timed: { Timed plan },
    ghost covered: { Covered plan closed },
}
