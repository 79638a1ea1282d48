// What is wrong with a lane of the yard's file.
ghost use Rattle.explain.specs.Found.{Finds};
ghost use Rattle.explain.specs.LaneFaults.{FaultOf, OutsideLimits};

use lane_yard::lane::Lane;
use lane_yard::refusal::LayRefusal;
use std::fmt;
use yard::limits::{HIGHEST_PLACE, LONGEST_TIME};

#[derive(Clone, Copy)]
pub(crate) enum LaneFault {
    PlaceTooHigh { place: u16 },
    // The lane leads from the place to itself.
    NoWay { place: u16 },
    // The travel time is not 1 to 36,000.
    BadTime { time: u16 },
    // The lane does not come after the one before it.
    NotRising { lane: Lane, before: Lane },
}

impl fmt::Display for LaneFault {
    fn fmt<W: fmt::Write>(&self, f: &mut fmt::Formatter<W>) -> fmt::Result {
        match *self {
            LaneFault::PlaceTooHigh { place } => {
                write!(f, "place {place} is above {HIGHEST_PLACE}, the highest")
            }
            LaneFault::NoWay { place } => {
                write!(f, "the lane leads from place {place} to itself")
            }
            LaneFault::BadTime { time } => {
                write!(f, "the travel time {time} is not 1 to {LONGEST_TIME}")
            }
            LaneFault::NotRising { lane, before } => write!(
                f,
                "the lane from place {} to {} must not follow the one from {} to {}; lanes rise by from, then by to",
                lane.from, lane.to, before.from, before.to
            ),
        }
    }
}

// What is wrong with a lane outside the limits. The two places are asked for one by one, as one of them is named.
fn limit_fault(lane: Lane) -> Option<LaneFault>
    ensures { Finds (OutsideLimits lane) result }
{
    let Lane { from, to, time } = lane;
    if from > HIGHEST_PLACE {
        Some(LaneFault::PlaceTooHigh { place: from })
    } else if to > HIGHEST_PLACE {
        Some(LaneFault::PlaceTooHigh { place: to })
    } else if from == to {
        Some(LaneFault::NoWay { place: from })
    } else if !(1..=LONGEST_TIME).contains(&time) {
        Some(LaneFault::BadTime { time })
    } else {
        None
    }
}

// What is wrong with a lane that was refused, given the one before it.
pub(crate) fn lane_fault_of(lane: Lane, before: Option<Lane>, why: LayRefusal) -> Option<LaneFault>
    ensures { Finds (FaultOf lane before why) result }
{
    match why {
        LayRefusal::BadLane { .. } => limit_fault(lane),
        LayRefusal::NotRising { .. } => {
            let before = before.filter(|before| before.places() >= lane.places())?;
            Some(LaneFault::NotRising { lane, before })
        }
        LayRefusal::TooManyLanes => None,
    }
}
