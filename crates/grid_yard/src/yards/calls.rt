// What a grid yard can be asked.
ghost use Rattle.std.specs.Prelude.{◌≡◌, ℕ, IfOk, None, Err, MatchResult};
ghost use Rattle.grid_yard.specs.Cells.{LanesOf};
ghost use Rattle.grid_yard.specs.Faults.{Fault, Lawful};
ghost use Rattle.grid_yard.specs.Meaning.{lanes_of};
ghost use Rattle.grid_yard.specs.Times.{open_cell};
ghost use Rattle.std.proofs.Common.{rules};

use crate::cells::{is_closed, step_time};
use crate::checks::{check_grid, words_needed};
use crate::plan::Plan;
use crate::refusal::GridRefusal;
use crate::yards::GridYard;
use bounded::BoundedVec;
use std::alloc::{AllocError, Global};
use yard::Yard;

impl GridYard {
    // A yard with no rows, so with no cells and no lanes.
    pub fn new(heap: Global) -> Result<GridYard, AllocError>
        ensures { IfOk result (λ s. (a b : ℕ) → lanes_of s a b ≡ None) }
    {
        let closed = BoundedVec::new(heap)?;
        Ok(GridYard {
            plan: Plan {
                rows: 0,
                columns: 1,
                along: 1,
                across: 1,
            },
            closed,
        })
    }

    // Sets out this grid in place of the old one, or refuses it and keeps the old one. Words beyond those that the
    // cells need are not read.
    pub fn set_out(&mut self, plan: Plan, closed: &[u64]) -> Result<(), GridRefusal>
        ensures outcome { MatchResult result (λ _. Lawful plan closed.now × LanesOf plan closed.now (lanes_of self.new)) (λ e. Fault plan closed.now e × (self.new ≡ self.old)) }
        ensures exact { (e : GridRefusal) → Fault plan closed.now e → result ≡ Err e }
    {
        check_grid(plan, closed)?;
        self.closed.replace(&closed[..words_needed(plan)]).unwrap();
        self.plan = plan;
        Ok(())
    }

    // Whether the cell is on the grid and not closed.
    fn is_open(&self, cell: u16) -> bool
        ensures { result ≡ open_cell self.now.plan self.now.closed cell }
    {
        cell < self.plan.rows * self.plan.columns && !is_closed(self.closed.as_slice(), cell)
    }
}

impl Yard for GridYard {
    ghost lanes = { lanes_of };

    ghost limited = { Prim.search rules };

    fn travel_time(&self, from: u16, to: u16) -> Option<u16>
        ensures { result ≡ lanes_of self.now from to }
    {
        if self.is_open(from) && self.is_open(to) {
            step_time(self.plan, from, to)
        } else {
            None
        }
    }
}
