// A buffer for the line that is being read.
ghost use Rattle.std.specs.Prelude.{◌≡◌, ℕ, List, [], ◌∷◌, ◌++◌, length, take, nat_lt};

use crate::MOST_DIGITS;
use arrayvec::ArrayVec;

// The most bytes of a line that are kept: one more than a line may have, so that a longer one is seen to be too long.
const MOST_KEPT: usize = MOST_DIGITS + 1;

// The first bytes of a line, as many as are kept.
#[derive(Drop)]
pub struct LineBuffer {
    bytes: ArrayVec<u8, MOST_KEPT>,
}

impl LineBuffer {
    ghost use Rattle.lines.specs.Buffers.{kept, Keeps};

    // A buffer of an empty line.
    pub fn new() -> LineBuffer
        ensures { kept result ≡ [] }
    {
        let bytes = ArrayVec::new();
        LineBuffer { bytes }
    }

    // Takes in the next byte of the line; past the most that are kept it is dropped.
    pub fn push(&mut self, byte: u8)
        ensures next { kept self.new ≡ take 65 (kept self.old ++ byte ∷ []) }
        ensures whole { (line : List ℕ) → Keeps self.old line → Keeps self.new (line ++ byte ∷ []) }
    {
        if !self.bytes.is_full() {
            self.bytes.push(byte);
        }
    }

    // Begins a new line.
    pub fn clear(&mut self)
        ensures { kept self.new ≡ [] }
    {
        // Quicker than `ArrayVec::clear`, which calls for each line a function to blank its bytes.
        *self = LineBuffer::new();
    }

    // Whether the line has a byte.
    pub fn is_started(&self) -> bool
        ensures started { result ≡ nat_lt 0 (length (kept self.now)) }
        ensures whole { (line : List ℕ) → Keeps self.now line → result ≡ nat_lt 0 (length line) }
    {
        !self.bytes.is_empty()
    }

    // The bytes that are kept.
    pub fn line(&self) -> &[u8]
        ensures { result.now ≡ kept self.now }
    {
        self.bytes.as_slice()
    }
}
