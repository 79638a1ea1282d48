// The program that explains a sheet line by line.
use crate::answers::write_answer;
use crate::faults::fault_of;
use crate::text::{Quoted, Refused, Request};
use crate::yards::{write_refused_yard, write_yard};
use console::files::load_yard;
use console::input::{TakesLines, take_lines};
use lane_yard::yards::LaneYard;
use lines::entry::{Entry, Input};
use lines::read::read_entry;
use lines::refusal::LineRefusal;
use session::sessions::Session;
use std::io;
use std::io::{BufWriter, Write};

// A session whose lines are explained.
#[derive(Drop)]
struct Explainer {
    session: Session,
    // The number of lines so far.
    lines: u64,
}

impl Explainer {
    // Does what the line's entry says, and writes what it says and what came of it.
    fn explain_entry(&mut self, line: &[u8], entry: Entry, out: &mut impl Write) -> io::Result<()> {
        // A line that reads as an entry is ASCII, so the text is never the empty one in its place.
        let digits = std::str::from_utf8(line).unwrap_or("");
        write!(out, "{digits:<10}  {}: ", Request(entry))?;
        let outcome = self.session.answer(line);
        write_answer(&self.session, entry, outcome, out)
    }
}

// Writes what is wrong with a line that cannot be read.
fn explain_fault(line: &[u8], why: LineRefusal, out: &mut impl Write) -> io::Result<()> {
    let number = why.number();
    let cause = fault_of(line, Input::Sheet, why);
    writeln!(out, "{}: {}", Quoted(line), Refused { number, cause })
}

impl TakesLines for Explainer {
    fn take_line<W: Write>(&mut self, line: &[u8], out: &mut W) -> io::Result<()> {
        self.lines = self.lines.saturating_add(1);
        write!(out, "{:>4}  ", self.lines)?;
        match read_entry(line, Input::Sheet) {
            Ok(entry) => self.explain_entry(line, entry, out),
            Err(why) => explain_fault(line, why, out),
        }
    }
}

// Reads `yard.hex`, then explains standard input line by line on standard output.
pub fn run(rt: &HostRuntime) -> io::Result<()> {
    let mut out = BufWriter::new(rt.alloc(), rt.stdout())?;
    let mut yard = LaneYard::new(rt.alloc())?;
    match load_yard(rt, &mut yard)? {
        Ok(()) => {
            write_yard(&yard, &mut out)?;
            out.flush()?;
            let session = Session::open(rt.alloc(), yard)?;
            let mut explainer = Explainer { session, lines: 0 };
            take_lines(&mut rt.stdin(), &mut explainer, &mut out)?;
        }
        Err(refusal) => write_refused_yard(rt, refusal, &mut out)?,
    }
    out.flush()
}
