// What judging reads of a sheet.
ghost use Rattle.std.specs.Prelude.{◌≡◌};
ghost use Rattle.judge.specs.Routes.{Consistent};

use sheet::records::{Precedence, Stop};

// The stops of a sheet, in whose order each carrier's own are its route, and the precedences.
#[derive(Clone, Copy)]
pub(crate) struct Routes<'a> {
    pub(crate) stops: &'a [Stop],
    pub(crate) precedences: &'a [Precedence],
    ghost consistent: { Consistent stops.now precedences.now },
}
