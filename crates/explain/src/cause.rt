// A cause of a refusal.
use crate::text::Counted;
use sheet::limits::{MOST_CARRIERS, MOST_PRECEDENCES, MOST_STOPS};
use sheet::records::Order;
use std::fmt;
use yard::limits::HIGHEST_PLACE;

// Why the sheet refuses an entry, with the numbers concerned.
#[derive(Clone, Copy)]
pub(crate) enum Cause {
    // The sheet has as many carriers as it may have.
    TooManyCarriers,
    TooManyStops,
    TooManyPrecedences,
    // The sheet has not so many carriers.
    NoCarrier {
        carrier: u8,
        carriers: usize,
    },
    // Another carrier has this start.
    StartTaken {
        place: u16,
        carrier: usize,
    },
    // Another carrier has this goal.
    GoalTaken {
        place: u16,
        carrier: usize,
    },
    // The route has reached its goal.
    AtGoal {
        carrier: u8,
        goal: u16,
    },
    PlaceTooHigh {
        place: u16,
    },
    // The carrier has a stop at the place.
    OnRoute {
        carrier: u8,
        place: u16,
        stop: usize,
    },
    // The first and the second are one carrier.
    SameCarrier {
        carrier: u8,
    },
    NotOnRoute {
        carrier: u8,
        place: u16,
    },
    // The place is the goal of the first, which it never leaves.
    FirstsGoal {
        carrier: u8,
        place: u16,
    },
    // The place is the start of the second, where it is from the beginning.
    SecondsStart {
        carrier: u8,
        place: u16,
    },
    // The two have this precedence at the place.
    Decided {
        order: Order,
    },
    // The two have no precedence at the place.
    NoPrecedence {
        order: Order,
    },
    // The two have only this precedence at the place, not the one that is to be struck.
    OtherWayRound {
        order: Order,
    },
}

// One table of texts: in parts, each part would need an arm for the causes of the others.
impl fmt::Display for Cause {
    fn fmt<W: fmt::Write>(&self, f: &mut fmt::Formatter<W>) -> fmt::Result {
        match *self {
            Cause::TooManyCarriers => {
                write!(
                    f,
                    "the sheet has {MOST_CARRIERS} carriers, and takes no more"
                )
            }
            Cause::TooManyStops => {
                write!(f, "the sheet has {MOST_STOPS} stops, and takes no more")
            }
            Cause::TooManyPrecedences => write!(
                f,
                "the sheet has {MOST_PRECEDENCES} precedences, and takes no more"
            ),
            Cause::NoCarrier { carrier, carriers } => write!(
                f,
                "there is no carrier {carrier}, as the sheet has {}",
                // `as`: there is no `From<usize>` for `u64`.
                Counted {
                    number: carriers as u64,
                    noun: "carrier",
                }
            ),
            Cause::StartTaken { place, carrier } => {
                write!(f, "place {place} is the start of carrier {carrier}")
            }
            Cause::GoalTaken { place, carrier } => {
                write!(f, "place {place} is the goal of carrier {carrier}")
            }
            Cause::AtGoal { carrier, goal } => {
                write!(
                    f,
                    "the route of carrier {carrier} has reached its goal, place {goal}"
                )
            }
            Cause::PlaceTooHigh { place } => {
                write!(f, "place {place} is above {HIGHEST_PLACE}, the highest")
            }
            Cause::OnRoute {
                carrier,
                place,
                stop,
            } => write!(
                f,
                "place {place} is on the route of carrier {carrier}, as stop {stop}"
            ),
            Cause::SameCarrier { carrier } => {
                write!(f, "the first and the second are both carrier {carrier}")
            }
            Cause::NotOnRoute { carrier, place } => {
                write!(f, "place {place} is not on the route of carrier {carrier}")
            }
            Cause::FirstsGoal { carrier, place } => write!(
                f,
                "place {place} is the goal of carrier {carrier}, which never leaves it"
            ),
            Cause::SecondsStart { carrier, place } => write!(
                f,
                "place {place} is the start of carrier {carrier}, which is there from the beginning"
            ),
            Cause::Decided {
                order: Order {
                    first,
                    second,
                    place,
                },
            } => write!(
                f,
                "carrier {first} goes before carrier {second} at place {place} already"
            ),
            Cause::NoPrecedence {
                order: Order {
                    first,
                    second,
                    place,
                },
            } => write!(
                f,
                "carriers {first} and {second} have no precedence at place {place}"
            ),
            Cause::OtherWayRound {
                order: Order {
                    first,
                    second,
                    place,
                },
            } => write!(
                f,
                "at place {place} it is the other way round: carrier {first} goes before carrier {second}"
            ),
        }
    }
}
