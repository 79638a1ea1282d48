// The tables that judging makes of a sheet's routes.
ghost use Rattle.std.specs.Prelude.{◌≡◌};
ghost use Rattle.judge.specs.Waits.{Ready};

use crate::legs::Leg;
use crate::routes::Routes;

// The routes, and the leg of each stop.
#[derive(Clone, Copy)]
pub(crate) struct Tables<'a> {
    pub(crate) routes: Routes<'a>,
    pub(crate) legs: &'a [Leg],
    ghost ready: { Ready routes.stops.now routes.precedences.now legs.now },
}
