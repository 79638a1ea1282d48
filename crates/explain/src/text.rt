// Small pieces of text.
use lines::MOST_DIGITS;
use lines::entry::{Entry, Rule};
use std::fmt;

// A number of things, as `1 tick` and `2 ticks`.
#[derive(Clone, Copy)]
pub(crate) struct Counted {
    pub number: u64,
    pub noun: &'static str,
}

impl fmt::Display for Counted {
    fn fmt<W: fmt::Write>(&self, f: &mut fmt::Formatter<W>) -> fmt::Result {
        let number = self.number;
        let noun = self.noun;
        match number {
            1 => write!(f, "1 {noun}"),
            _ => write!(f, "{number} {noun}s"),
        }
    }
}

// The name of a following rule.
#[derive(Clone, Copy)]
pub(crate) struct RuleName(pub Rule);

impl fmt::Display for RuleName {
    fn fmt<W: fmt::Write>(&self, f: &mut fmt::Formatter<W>) -> fmt::Result {
        match self.0 {
            Rule::FullLane => f.write_str("full lane"),
            Rule::LaneLessOne => f.write_str("lane less one"),
            Rule::FixedGap { gap } => write!(f, "fixed gap {gap}"),
        }
    }
}

// What an entry asks for.
#[derive(Clone, Copy)]
pub(crate) struct Request(pub Entry);

impl fmt::Display for Request {
    fn fmt<W: fmt::Write>(&self, f: &mut fmt::Formatter<W>) -> fmt::Result {
        match self.0 {
            Entry::Carrier { start, goal } => {
                write!(f, "carrier from place {start} to place {goal}")
            }
            Entry::Stop { carrier, place } => write!(
                f,
                "stop of carrier {carrier} at place {place}"
            ),
            Entry::Precedence {
                first,
                second,
                place,
            } => write!(
                f,
                "carrier {first} before carrier {second} at place {place}"
            ),
            Entry::Strike {
                first,
                second,
                place,
            } => write!(
                f,
                "strike carrier {first} before carrier {second} at place {place}"
            ),
            Entry::Judge { rule } => write!(f, "judge under {}", RuleName(rule)),
            Entry::Lane { from, to, time } => {
                write!(f, "lane from place {from} to place {to} of {time}")
            }
        }
    }
}

// A byte, shown as it is if it is printable ASCII; a backslash and any other byte as `\xNN`.
#[derive(Clone, Copy)]
pub(crate) struct Printable(pub u8);

impl fmt::Display for Printable {
    fn fmt<W: fmt::Write>(&self, f: &mut fmt::Formatter<W>) -> fmt::Result {
        let byte = self.0;
        match byte {
            b' '..=b'[' | b']'..=b'~' => f.write_char(char::from(byte)),
            _ => write!(f, "\\x{byte:02X}"),
        }
    }
}

// A line that may hold any bytes, in quotes: at most as many of them as a line has digits, and dots if there are more.
#[derive(Clone, Copy)]
pub(crate) struct Quoted<'a>(pub &'a [u8]);

impl fmt::Display for Quoted<'_> {
    fn fmt<W: fmt::Write>(&self, f: &mut fmt::Formatter<W>) -> fmt::Result {
        f.write_char('"')?;
        for byte in self.0.iter().take(MOST_DIGITS) {
            write!(f, "{}", Printable(*byte))?;
        }
        match self.0.len() {
            0..=MOST_DIGITS => f.write_char('"'),
            _ => f.write_str("...\""),
        }
    }
}

// That something is refused, with the number of the refusal, and after a colon the cause where one is known.
#[derive(Clone, Copy)]
pub(crate) struct Refused<T> {
    pub number: u8,
    pub cause: Option<T>,
}

impl<T: fmt::Display> fmt::Display for Refused<T> {
    fn fmt<W: fmt::Write>(&self, f: &mut fmt::Formatter<W>) -> fmt::Result {
        write!(f, "REFUSED ({})", self.number)?;
        match &self.cause {
            Some(cause) => write!(f, ": {cause}"),
            None => Ok(()),
        }
    }
}
