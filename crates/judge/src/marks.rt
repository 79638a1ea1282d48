// Who goes first at each stop. The marks are in an array, since judging takes no memory (a rule of the project).
ghost use Rattle.std.specs.Prelude.{◌≡◌, ◌<◌, false, length, replicate};
ghost use Rattle.judge.specs.Meetings.{Leads, leads_at};

use crate::routes::Routes;
use sheet::limits::{MOST_CARRIERS, MOST_STOPS};

// A mark for each stop and each carrier.
const MARKS: usize = MOST_STOPS * MOST_CARRIERS;

// For each stop and each other carrier a mark, whether a precedence has the stop's own carrier go first there.
#[derive(Drop)]
pub(crate) struct Marks {
    pub(crate) first: [bool; MARKS],
}

impl Marks {
    // No mark.
    #[inline]
    pub(crate) fn none() -> Marks
        ensures { result.first ≡ replicate 65536 false }
    {
        Marks {
            first: [false; MARKS],
        }
    }

    // Makes the marks of the routes' precedences, where there is none. Tried as `Marks::of(routes)`: it was proved, but
    // the 64 KiB were then copied twice in each judging.
    pub(crate) fn mark(&mut self, routes: Routes)
        requires { self.old.first ≡ replicate 65536 false }
        ensures { Leads routes.entry.precedences.now (length routes.entry.precedences.now) self.new.first }
    {
        for precedence in routes.precedences {
            let row = usize::from(precedence.first_stop) * MOST_CARRIERS;
            self.first[row + usize::from(precedence.second)] = true;
        }
    }

    // Whether the stop's carrier goes first there, before the carrier `other`.
    pub(crate) fn goes_first(&self, stop: usize, other: u8) -> bool
        requires stop { stop < 1024 }
        requires carrier { other < 64 }
        ensures { result ≡ leads_at self.now.first stop other }
    {
        self.first[stop * MOST_CARRIERS + usize::from(other)]
    }
}
