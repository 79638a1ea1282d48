// A cause why a sheet does not pass.
use crate::text::Counted;
use std::fmt;

#[derive(Clone, Copy)]
pub(crate) enum JudgeCause {
    // The carrier's route ends, at this stop and place, short of its goal.
    NotAtGoal {
        carrier: u16,
        stop: u16,
        place: u16,
        goal: u16,
    },
    // No lane leads from the one place to the other, at this stop.
    NoLane {
        carrier: u8,
        stop: u16,
        from: u16,
        to: u16,
    },
    // The two carriers have these stops at the place, and no precedence.
    Undecided {
        carrier: u8,
        stop: u16,
        other: u8,
        later: u16,
        place: u16,
    },
    // The carrier goes from its place to the other's and the other one to its, and each goes first at its own.
    HeadOn {
        carrier: u8,
        stop: u16,
        place: u16,
        other: u8,
        other_stop: u16,
        other_place: u16,
    },
    // There is a ring of waiting of this many stops.
    Ring {
        length: u16,
    },
}

// One table of texts: in parts, each part would need an arm for the causes of the others.
impl fmt::Display for JudgeCause {
    fn fmt<W: fmt::Write>(&self, f: &mut fmt::Formatter<W>) -> fmt::Result {
        match *self {
            JudgeCause::NotAtGoal {
                carrier,
                stop,
                place,
                goal,
            } => write!(
                f,
                "the route of carrier {carrier} ends at place {place} (stop {stop}), and its goal is place {goal}"
            ),
            JudgeCause::NoLane {
                carrier,
                stop,
                from,
                to,
            } => write!(
                f,
                "carrier {carrier} is to go from place {from} to place {to} (stop {stop}), and the yard has no lane there"
            ),
            JudgeCause::Undecided {
                carrier,
                stop,
                other,
                later,
                place,
            } => write!(
                f,
                "carriers {carrier} and {other} meet at place {place} (stops {stop} and {later}), and no precedence says who goes first"
            ),
            JudgeCause::HeadOn {
                carrier,
                stop,
                place,
                other,
                other_stop,
                other_place,
            } => write!(
                f,
                "carriers {carrier} and {other} are set head on between places {place} and {other_place}\n         carrier {carrier} goes from place {place} (stop {stop}) to place {other_place}, and goes first at place {place}\n         carrier {other} goes from place {other_place} (stop {other_stop}) to place {place}, and goes first at place {other_place}"
            ),
            JudgeCause::Ring { length } => write!(
                f,
                "a ring of waiting over {}",
                Counted {
                    number: u64::from(length),
                    noun: "stop",
                }
            ),
        }
    }
}
