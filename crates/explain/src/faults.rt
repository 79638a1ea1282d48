// What is wrong with a line that cannot be read.
use crate::text::{Printable, RuleName};
use lines::MOST_DIGITS;
use lines::entry::{Input, Rule};
use lines::refusal::LineRefusal;
use std::ops::Range;
use std::{fmt, str};
use yard::limits::LONGEST_GAP;

// Kinds and rules are bytes here, shown as they stand in the line: most bytes are no kind, and no rule.
#[derive(Clone, Copy)]
pub(crate) enum LineFault {
    // The byte at the column is no digit.
    BadByte {
        byte: u8,
        column: u16,
    },
    // There are more than 64 bytes.
    TooLong,
    Empty,
    // The number of digits is odd.
    Odd {
        digits: usize,
    },
    // A line of this kind has another number of digits.
    WrongLength {
        kind: u8,
        digits: usize,
        wanted: usize,
    },
    // The kind of a lane, in a sheet.
    LaneInSheet,
    // No kind of a sheet's line.
    UnknownKind {
        kind: u8,
    },
    // Not the kind of a lane, in the file of the yard.
    NoLane {
        kind: u8,
    },
    UnknownRule {
        rule: u8,
    },
    // A fixed gap above 36,000.
    GapTooLong {
        gap: u16,
    },
    // A gap with a rule that takes none.
    GapNotTaken {
        rule: Rule,
        gap: u16,
    },
}

// One table of texts: in parts, each part would need an arm for the faults of the others.
impl fmt::Display for LineFault {
    fn fmt<W: fmt::Write>(&self, f: &mut fmt::Formatter<W>) -> fmt::Result {
        match *self {
            LineFault::BadByte { byte, column } => write!(
                f,
                "'{}' at column {column}, counted from 0, is no digit 0-9 or A-F",
                Printable(byte)
            ),
            LineFault::TooLong => write!(
                f,
                "a line has at most {MOST_DIGITS} digits, and this one is longer"
            ),
            LineFault::Empty => f.write_str("the line is empty"),
            LineFault::Odd { digits } => {
                write!(
                    f,
                    "{digits} is an odd number of digits, and two make a byte"
                )
            }
            LineFault::WrongLength {
                kind,
                digits,
                wanted,
            } => write!(
                f,
                "a line of kind {kind:02X} has {wanted} digits, and this one has {digits}"
            ),
            LineFault::LaneInSheet => f.write_str(
                "06 is the kind of a lane, which belongs in yard.hex",
            ),
            LineFault::UnknownKind { kind } => {
                write!(
                    f,
                    "{kind:02X} is no kind of line; a sheet has the kinds 01 to 05"
                )
            }
            LineFault::NoLane { kind } => { write!(f, "{kind:02X} is not 06, the kind of a lane") }
            LineFault::UnknownRule { rule } => {
                write!(f, "{rule:02X} is no rule; the rules are 00, 01 and 02")
            }
            LineFault::GapTooLong { gap } => {
                write!(f, "the gap {gap} is above {LONGEST_GAP}, the longest")
            }
            LineFault::GapNotTaken { rule, gap } => write!(
                f,
                "the rule {} takes no gap, so its field is 0000, and here it is {gap:04X}",
                RuleName(rule)
            ),
        }
    }
}

// The byte that two digits of a line stand for.
fn byte_at(line: &[u8], digits: Range<usize>) -> Option<u8> {
    let text = str::from_utf8(line.get(digits)?).ok()?;
    u8::from_str_radix(text, 16).ok()
}

// What is wrong with the length of a line of digits.
fn length_fault(line: &[u8]) -> Option<LineFault> {
    match line.len() {
        0 => Some(LineFault::Empty),
        digits if digits > MOST_DIGITS => Some(LineFault::TooLong),
        digits if digits % 2 == 1 => Some(LineFault::Odd { digits }),
        digits => {
            let kind = byte_at(line, 0..2)?;
            // The digits of a line by its kind; `lines` has the lengths in patterns alone, which have no name.
            let wanted = match kind {
                0x02 | 0x05 => 8,
                0x06 => 14,
                _ => 10,
            };
            Some(LineFault::WrongLength {
                kind,
                digits,
                wanted,
            })
        }
    }
}

// What is wrong with the kind of a line of digits.
fn kind_fault(line: &[u8], input: Input) -> Option<LineFault> {
    let kind = byte_at(line, 0..2)?;
    Some(match (input, kind) {
        (Input::Yard, _) => LineFault::NoLane { kind },
        (Input::Sheet, 0x06) => LineFault::LaneInSheet,
        (Input::Sheet, _) => LineFault::UnknownKind { kind },
    })
}

// What is wrong with the rule or the gap of a line of digits that asks for a judging.
fn rule_fault(line: &[u8]) -> Option<LineFault> {
    let gap = u16::from_be_bytes([byte_at(line, 4..6)?, byte_at(line, 6..8)?]);
    Some(match byte_at(line, 2..4)? {
        0x00 => LineFault::GapNotTaken {
            rule: Rule::FullLane,
            gap,
        },
        0x01 => LineFault::GapNotTaken {
            rule: Rule::LaneLessOne,
            gap,
        },
        0x02 => LineFault::GapTooLong { gap },
        rule => LineFault::UnknownRule { rule },
    })
}

// What is wrong with a line that was refused.
pub(crate) fn fault_of(line: &[u8], input: Input, why: LineRefusal) -> Option<LineFault> {
    match why {
        LineRefusal::BadDigit { column } => Some(LineFault::BadByte {
            byte: *line.get(usize::from(column))?,
            column,
        }),
        LineRefusal::BadLength => length_fault(line),
        LineRefusal::UnknownKind => kind_fault(line, input),
        LineRefusal::BadRule => rule_fault(line),
    }
}
