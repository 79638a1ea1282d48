// What a sheet holds.
ghost use Rattle.std.specs.Prelude.{◌≡◌};
ghost use Rattle.explain.specs.Facts.{Follows, IsOrder, StepsTo, Visits};
ghost use Rattle.explain.specs.Found.{Finds};
ghost use Rattle.explain.specs.Lists.{lists_of};

use crate::keys::{Previous, Step};
use keyed::find;
use sheet::records::{Carrier, Order, Precedence, Stop, Visit};
use sheet::sheets::Sheet;
use std::marker::Model;

// The lists of a sheet, lent.
#[derive(Drop)]
pub(crate) struct Records<'a> {
    pub carriers: &'a [Carrier],
    pub stops: &'a [Stop],
    pub precedences: &'a [Precedence],
}

// A contract sees the lists themselves. A carrier's record tells whether its route has reached its goal, so that this is
// not searched for.
impl<'a> Model for Records<'a> {
    ghost use Rattle.explain.specs.Facts.{RoutesTold};
    ghost use Rattle.explain.specs.Lists.{Lists};

    ghost Value = { Lists };

    ghost view = { λ r. record { carriers = r.carriers.now; stops = r.stops.now; precedences = r.precedences.now } };

    ghost invariant = { λ r. RoutesTold r.carriers.now r.stops.now };
}

impl<'a> Records<'a> {
    // Those of this sheet.
    #[tactic(auto, using(crate::proofs::Told::routes_told))]
    pub(crate) fn of(sheet: &'a Sheet) -> Records<'a>
        ensures { result ≡ lists_of sheet.now }
    {
        Records {
            carriers: sheet.carriers(),
            stops: sheet.stops(),
            precedences: sheet.precedences(),
        }
    }
}

impl Records<'_> {
    // The number of the carrier's stop at the place. Each look-up is the one search, by a key of its own. The carrier
    // and the place are of two types, and causes name them one by one, so the key is made only here.
    pub(crate) fn stop_at(&self, carrier: u8, place: u16) -> Option<usize>
        ensures { Finds (Visits self.now.stops carrier place) result }
    {
        find(self.stops, &Visit { carrier, place })
    }

    // The index of the precedence, where it stands.
    pub(crate) fn standing(&self, order: Order) -> Option<usize>
        ensures { Finds (IsOrder self.now.precedences order) result }
    {
        find(self.precedences, &order)
    }

    // The number of the stop after this one on its route.
    pub(crate) fn stop_after(&self, stop: u16) -> Option<usize>
        ensures { Finds (Follows self.now.stops stop) result }
    {
        find(self.stops, &Previous(Some(stop)))
    }

    // The number of the stop at the place, where the route goes there from the stop.
    pub(crate) fn step_to(&self, stop: u16, place: u16) -> Option<usize>
        ensures { Finds (StepsTo self.now.stops stop place) result }
    {
        let previous = Some(stop);
        find(self.stops, &Step { previous, place })
    }
}
