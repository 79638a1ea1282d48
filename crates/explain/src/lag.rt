// A lag, with what it comes from.
ghost use Rattle.std.specs.Prelude.{◌≡◌};
ghost use Rattle.explain.specs.Ticks.{ticks_of};

use crate::text::Counted;
use std::cmp::Ordering;
use std::fmt;

// Why a stop is reached so many ticks later than another.
#[derive(Clone, Copy)]
pub(crate) enum Lag {
    // The carrier drives from the one to the other.
    Travel {
        carrier: u8,
        from: u16,
        to: u16,
        time: u16,
    },
    // The first carrier leaves the place for the next place of its route, and then the second reaches the place.
    Waiting {
        first: u8,
        second: u8,
        place: u16,
        next: u16,
        gap: u32,
        time: u16,
    },
}

impl Lag {
    // How many ticks.
    pub(crate) fn ticks(&self) -> i64
        ensures { result ≡ ticks_of self.now }
    {
        match *self {
            Lag::Travel { time, .. } => i64::from(time),
            Lag::Waiting { gap, time, .. } => i64::from(gap) + 1 - i64::from(time),
        }
    }
}

// A number of ticks before or after an event.
#[derive(Clone, Copy)]
struct Offset(i64);

impl fmt::Display for Offset {
    fn fmt<W: fmt::Write>(&self, f: &mut fmt::Formatter<W>) -> fmt::Result {
        let number = self.0.unsigned_abs();
        let noun = "tick";
        let ticks = Counted { number, noun };
        match self.0.cmp(&0) {
            Ordering::Greater => write!(f, "{ticks} after "),
            Ordering::Less => write!(f, "{ticks} before "),
            Ordering::Equal => Ok(()),
        }
    }
}

impl fmt::Display for Lag {
    fn fmt<W: fmt::Write>(&self, f: &mut fmt::Formatter<W>) -> fmt::Result {
        match *self {
            Lag::Travel {
                carrier,
                from,
                to,
                time,
            } => write!(
                f,
                "carrier {carrier} drives from place {from} to place {to} in {}",
                Counted {
                    number: u64::from(time),
                    noun: "tick",
                }
            ),
            Lag::Waiting {
                first,
                second,
                place,
                next,
                gap,
                time,
            } => write!(
                f,
                "carrier {first} goes first at place {place}, so carrier {second} gets there no earlier than {}carrier {first} to place {next} (gap {gap} - travel time {time} + 1)",
                Offset(self.ticks())
            ),
        }
    }
}
