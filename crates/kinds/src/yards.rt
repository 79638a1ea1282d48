// Any of the kinds of yard.
ghost use Rattle.std.specs.Prelude.{◌≡◌};
ghost use Rattle.kinds.specs.Yards.{lanes_of};
ghost use Rattle.std.proofs.Common.{rules};
ghost use Rattle.lane_yard.specs.Times.{time_within};
ghost use Rattle.kinds.specs.declared.yards.AnyYard.TheVariants.{Lanes, Grid};

use grid_yard::yards::GridYard;
use lane_yard::yards::LaneYard;
use yard::Yard;

// A yard of either kind.
#[derive(Drop)]
pub enum AnyYard {
    Lanes { yard: LaneYard },
    Grid { yard: GridYard },
}

impl Yard for AnyYard {
    ghost lanes = { lanes_of };

    ghost limited = { elim [
      | Lanes yard ↦ λ from to. time_within _ from to yard.lawful.1.0
      | Grid yard ↦ λ from to. Prim.search rules
    ] };

    fn travel_time(&self, from: u16, to: u16) -> Option<u16>
        ensures { result ≡ lanes_of self.now from to }
    {
        match self {
            AnyYard::Lanes { yard } => yard.travel_time(from, to),
            AnyYard::Grid { yard } => yard.travel_time(from, to),
        }
    }
}
