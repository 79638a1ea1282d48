// Reading the file of a yard, and laying its lanes.
ghost use Rattle.std.specs.Prelude.{◌≡◌, ℕ, List, [], ◌∷◌, ◌++◌, take, IfOk};
ghost use Rattle.lines.specs.Buffers.{Keeps};

use crate::refusal::FileRefusal;
use bounded::BoundedVec;
use lane_yard::lane::Lane;
use lane_yard::yards::{LaneYard, MOST_LANES};
use lines::buffer::LineBuffer;
use lines::entry::{Entry, Input};
use lines::read::read_entry;
use lines::refusal::LineRefusal;
use std::alloc::{AllocError, Global};

// The most lanes that are kept: one more than may be laid, so that too many are seen to be too many.
const MOST_KEPT: usize = MOST_LANES + 1;

// What has been read of the file of a yard. It keeps so many lanes, the first refusal of a line, and the start of one
// line, so that a file of any size costs the same.
#[derive(Drop)]
pub struct YardFile {
    line: LineBuffer,
    lanes: BoundedVec<Lane, MOST_KEPT>,
    refusal: Option<LineRefusal>,
}

impl YardFile {
    ghost use Rattle.lane_yard.specs.declared.lane.Lane.{Lane as LaneRecord};
    ghost use Rattle.yard_file.specs.Lines.{lines_of};
    ghost use Rattle.yard_file.specs.Files.{Ended, HasRead};
    ghost use Rattle.yard_file.specs.Laying.{FileLaid, earlier, lane_said};

    // Nothing read yet.
    pub fn new(heap: Global) -> Result<YardFile, AllocError>
        ensures { IfOk result (λ s. HasRead s []) }
    {
        Ok(YardFile {
            line: LineBuffer::new(),
            lanes: BoundedVec::new(heap)?,
            refusal: None,
        })
    }

    // Takes what a line reads as: a lane more, while there is room for one, or a refusal, unless one is kept already.
    fn note(&mut self, read: Result<Entry, LineRefusal>)
        ensures lanes { (lanes : List LaneRecord) → self.old.lanes ≡ take 8193 lanes → self.new.lanes ≡ take 8193 (lanes ++ lane_said read) }
        ensures refusal { self.new.refusal ≡ earlier self.old.refusal read }
        ensures line { self.new.line ≡ self.old.line }
    {
        match read {
            Ok(Entry::Lane { from, to, time }) => {
                let _ = self.lanes.push(Lane { from, to, time });
            }
            Ok(_) => {}
            Err(why) => self.refusal = self.refusal.or(Some(why)),
        }
    }

    // Ends the line that has begun.
    fn end_line(&mut self)
        ensures ended { (ended : List (List ℕ)) (begun : List ℕ) → Ended self.old ended → Keeps self.old.line begun → Ended self.new (ended ++ begun ∷ []) }
        ensures line { Keeps self.new.line [] }
    {
        let read = read_entry(self.line.line(), Input::Yard);
        self.note(read);
        self.line.clear();
    }

    // Ends the last line, if it lacks its newline.
    fn end(&mut self)
        ensures { (bytes : List ℕ) → HasRead self.old bytes → Ended self.new (lines_of bytes) }
    {
        if self.line.is_started() {
            self.end_line();
        }
    }

    // Reads a byte more of the file.
    pub fn push(&mut self, byte: u8)
        ensures { (bytes : List ℕ) → HasRead self.old bytes → HasRead self.new (bytes ++ byte ∷ []) }
    {
        if byte == b'\n' {
            self.end_line();
        } else {
            self.line.push(byte);
        }
    }

    // Reads the next bytes of the file.
    pub fn read(&mut self, more: &[u8])
        ensures { (bytes : List ℕ) → HasRead self.old bytes → HasRead self.new (bytes ++ more.now) }
    {
        for byte in more {
            self.push(*byte);
        }
    }

    // Ends the file, and lays its lanes; refuses by its first bad line, or else as the laying does.
    pub fn lay(mut self, yard: &mut LaneYard) -> Result<(), FileRefusal>
        ensures { (bytes : List ℕ) → HasRead self bytes → FileLaid (lines_of bytes) yard.old yard.new result }
    {
        self.end();
        if let Some(why) = self.refusal {
            return Err(FileRefusal::Line { why });
        }
        yard.lay(self.lanes.as_slice())?;
        Ok(())
    }
}
