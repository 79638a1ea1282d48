// The lane yard.
ghost use Rattle.lane_yard.specs.Faults.{Lawful};

use crate::lane::Lane;
use bounded::BoundedVec;

mod calls;

// The most lanes.
pub const MOST_LANES: usize = 8192;

// A yard whose lanes are its records: at most 8,192, rising, each within the limits.
// Memory for the most that it may hold is taken when it is made, so that laying never needs memory.
#[derive(Drop)]
pub struct LaneYard {
    records: BoundedVec<Lane, MOST_LANES>,
    ghost lawful: { Lawful records },
}
