// Which grids may be set out.
ghost use Rattle.std.specs.Prelude.{◌≡◌, ◌≤◌, MatchResult};
ghost use Rattle.grid_yard.specs.Faults.{Fault, Lawful, Sized, needed};

use crate::cells::CELLS_IN_WORD;
use crate::plan::{LONGEST_SIDE, Plan};
use crate::refusal::GridRefusal;
use yard::limits::LONGEST_TIME;

// How many words the cells need: one for each 64 of them or part of them.
pub(crate) fn words_needed(plan: Plan) -> usize
    requires { Sized plan }
    ensures value { result ≡ needed plan }
    ensures fits { result ≤ 64 }
{
    usize::from((plan.rows * plan.columns).div_ceil(CELLS_IN_WORD))
}

// The first of the checks that the grid fails, if any.
pub(crate) fn check_grid(plan: Plan, closed: &[u64]) -> Result<(), GridRefusal>
    ensures { MatchResult result (λ _. Lawful plan closed.now) (λ e. Fault plan closed.now e) }
{
    if !(1..=LONGEST_SIDE).contains(&plan.rows) || !(1..=LONGEST_SIDE).contains(&plan.columns) {
        return Err(GridRefusal::BadSize);
    }
    if !(1..=LONGEST_TIME).contains(&plan.along) || !(1..=LONGEST_TIME).contains(&plan.across) {
        return Err(GridRefusal::BadTime);
    }
    if closed.len() < words_needed(plan) {
        return Err(GridRefusal::TooFewWords);
    }
    Ok(())
}
