// Which lists of lanes may be laid.
ghost use Rattle.std.specs.Prelude.{◌↔◌, IsTrue, MatchResult};
ghost use Rattle.lane_yard.specs.Faults.{Fault, Lawful};
ghost use Rattle.lane_yard.specs.Records.{Before, Within};

use crate::lane::Lane;
use crate::refusal::LayRefusal;
use crate::yards::MOST_LANES;
use yard::limits::{HIGHEST_PLACE, LONGEST_TIME};

// Whether the lane is within the limits.
fn is_within(lane: &Lane) -> bool
    ensures { IsTrue result ↔ Within lane.now }
{
    lane.from <= HIGHEST_PLACE
        && lane.to <= HIGHEST_PLACE
        && lane.from != lane.to
        && (1..=LONGEST_TIME).contains(&lane.time)
}

// Whether `a` comes before `b`: by the place they lead from, then by the place they lead to. No derive: the travel time
// does not count. Place by place: compared as pairs, both places of every lane are compared, and laying takes a fifth
// more time.
pub(crate) fn is_before(a: &Lane, b: &Lane) -> bool
    ensures { IsTrue result ↔ Before a.now b.now }
{
    if a.from == b.from {
        a.to < b.to
    } else {
        a.from < b.from
    }
}

// The first fault of a list, if it has one.
pub(crate) fn check_lanes(lanes: &[Lane]) -> Result<(), LayRefusal>
    ensures { MatchResult result (λ _. Lawful lanes.now) (λ e. Fault lanes.now e) }
{
    if lanes.len() > MOST_LANES {
        return Err(LayRefusal::TooManyLanes);
    }
    let mut previous = None;
    for (index, lane) in (0u16..).zip(lanes) {
        if !is_within(lane) {
            return Err(LayRefusal::BadLane { index });
        }
        if previous.is_some_and(|previous| !is_before(previous, lane)) {
            return Err(LayRefusal::NotRising { index });
        }
        previous = Some(lane);
    }
    Ok(())
}
