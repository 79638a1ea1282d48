// Explaining the file of the yard.
use crate::faults::fault_of;
use crate::lane_fault::lane_fault_of;
use crate::text::{Counted, Quoted, Refused};
use console::input::{TakesLines, take_lines};
use lane_yard::lane::Lane;
use lane_yard::refusal::LayRefusal;
use lane_yard::yards::{LaneYard, MOST_LANES};
use lines::entry::{Entry, Input};
use lines::read::read_entry;
use std::fs::File;
use std::io::Write;
use std::{fmt, io};
use yard_file::refusal::FileRefusal;

// What a second reading of the file looks for: the line that it was refused for.
#[derive(Drop)]
struct RefusedLine {
    // The refusal, until its line is found.
    refusal: Option<FileRefusal>,
    // The number of lines so far, and the lane of the last one.
    lines: u64,
    before: Option<Lane>,
}

impl RefusedLine {
    // Writes that this is the line, and why it is refused.
    fn write_found(
        &mut self,
        line: &[u8],
        refused: &impl fmt::Display,
        out: &mut impl Write,
    ) -> io::Result<()> {
        self.refusal = None;
        let number = self.lines;
        writeln!(out, "yard.hex, line {number}: {}: {refused}", Quoted(line))
    }

    // Takes a lane, and writes what is wrong with it if it is the one that is refused.
    fn take_lane(
        &mut self,
        line: &[u8],
        lane: Lane,
        why: LayRefusal,
        out: &mut impl Write,
    ) -> io::Result<()> {
        let before = self.before.replace(lane);
        let Some(index) = refused_index(why) else {
            return Ok(());
        };
        if u64::from(index) + 1 != self.lines {
            return Ok(());
        }
        let number = why.number();
        let cause = lane_fault_of(lane, before, why);
        self.write_found(line, &Refused { number, cause }, out)
    }
}

// The index of the lane that is refused.
fn refused_index(why: LayRefusal) -> Option<u16> {
    match why {
        LayRefusal::BadLane { index } | LayRefusal::NotRising { index } => Some(index),
        LayRefusal::TooManyLanes => None,
    }
}

impl TakesLines for RefusedLine {
    fn take_line<W: Write>(&mut self, line: &[u8], out: &mut W) -> io::Result<()> {
        self.lines = self.lines.saturating_add(1);
        match (self.refusal, read_entry(line, Input::Yard)) {
            (Some(FileRefusal::Line { .. }), Err(why)) => {
                let number = why.number();
                let cause = fault_of(line, Input::Yard, why);
                self.write_found(line, &Refused { number, cause }, out)
            }
            (Some(FileRefusal::Lay { why }), Ok(Entry::Lane { from, to, time })) => {
                self.take_lane(line, Lane { from, to, time }, why, out)
            }
            _ => Ok(()),
        }
    }
}

// The cause of the refusal of a whole file: no line of it is at fault.
#[derive(Clone, Copy)]
struct TooManyLanes;

impl fmt::Display for TooManyLanes {
    fn fmt<W: fmt::Write>(&self, f: &mut fmt::Formatter<W>) -> fmt::Result {
        write!(f, "a yard has at most {MOST_LANES} lanes")
    }
}

// Writes which line of the file is refused, and why.
pub(crate) fn write_refused_yard(
    rt: &HostRuntime,
    refusal: FileRefusal,
    out: &mut impl Write,
) -> io::Result<()> {
    let mut search = RefusedLine {
        refusal: Some(refusal),
        lines: 0,
        before: None,
    };
    if let Ok(mut file) = File::open(rt, "yard.hex") {
        take_lines(&mut file, &mut search, out)?;
    }
    let Some(refusal) = search.refusal else {
        return Ok(());
    };
    let number = refusal.number();
    let cause = match refusal {
        FileRefusal::Lay {
            why: LayRefusal::TooManyLanes,
        } => Some(TooManyLanes),
        _ => None,
    };
    writeln!(out, "yard.hex: {}", Refused { number, cause })
}

// Writes how many lanes the yard has.
pub(crate) fn write_yard(yard: &LaneYard, out: &mut impl Write) -> io::Result<()> {
    // `as`: there is no `From<usize>` for `u64`.
    let number = yard.lanes().len() as u64;
    let noun = "lane";
    match number {
        0 => writeln!(out, "yard.hex: no lanes, as it is empty or cannot be read"),
        _ => writeln!(out, "yard.hex: {}", Counted { number, noun }),
    }
}
