// Taking an input line by line.
ghost use Rattle.std.specs.Prelude.{◌≡◌, ℕ, ◌++◌, List, [], OnOk};
ghost use Rattle.std.specs.Io.KnownBytes.{Consumes, IsAtEnd};
ghost use Rattle.lines.specs.Buffers.{kept};
ghost use Rattle.console.specs.Taking.{Known, HasTaken, TakesAll};

use lines::buffer::LineBuffer;
use std::io;
use std::io::{Error, Read, Write};

// The most bytes of one read. They go into an array of fixed size, so that no line needs memory.
pub(crate) const CHUNK: usize = 16384;

// What a program does with the lines of an input.
pub trait TakesLines {
    // What a line does: the taker before, the line, the bytes that the writer holds before and after, where they are
    // known, and the taker after.
    ghost takes: { Self → List ℕ → Known → Known → Self → Type 0 } = { λ _ _ _ _ _. Unit {0} };

    // Takes the next line, without its newline and with no byte past the 65th, and writes what is to be said of it.
    fn take_line<W: Write>(&mut self, line: &[u8], out: &mut W) -> io::Result<()>
        ensures { OnOk result (takes self.old line.now (W.contents out.old) (W.contents out.new) self.new) };
}

// Takes bytes of the input, and gives the taker each line that ends in them.
// Byte by byte: a buffer that takes whole parts at once was tried; the program was no quicker for it, and the loop no
// plainer.
fn take_bytes<T: TakesLines, W: Write>(
    bytes: &[u8],
    taker: &mut T,
    line: &mut LineBuffer,
    out: &mut W,
) -> io::Result<()>
    ensures { OnOk result ((before : List ℕ) (t : T) (held : Known) → HasTaken T.takes before t held line.old taker.old (W.contents out.old) → HasTaken T.takes (before ++ bytes.now) t held line.new taker.new (W.contents out.new)) }
{
    for byte in bytes {
        if *byte == b'\n' {
            taker.take_line(line.line(), out)?;
            line.clear();
        } else {
            line.push(*byte);
        }
    }
    Ok(())
}

// The error of an input that has not ended after as many chunks as can be counted.
pub(crate) fn too_long() -> Error {
    Error::other("the input is too long")
}

// Takes the input to its end, a chunk at a time: the end is where a read gives no byte. What is said of the lines so far
// is written out before the program waits for more input.
fn take_chunks<R: Read, T: TakesLines, W: Write>(
    input: &mut R,
    taker: &mut T,
    line: &mut LineBuffer,
    out: &mut W,
) -> io::Result<()>
    requires { kept line.old ≡ [] }
    ensures { OnOk result ((bytes : List ℕ) × Consumes (R.remaining input.old) (R.remaining input.new) bytes × IsAtEnd (R.remaining input.new) × HasTaken T.takes bytes taker.old (W.contents out.old) line.new taker.new (W.contents out.new)) }
{
    let mut chunk = [0; CHUNK];
    // A rule of the project: a `loop` that waits for input without a handle to wait by is counted. No input has so many
    // chunks.
    for _ in 0..u64::MAX {
        let count = input.read(&mut chunk)?;
        if count == 0 {
            return Ok(());
        }
        take_bytes(&chunk[..count], taker, line, out)?;
        out.flush()?;
    }
    Err(too_long())
}

// Gives the taker every line of the input. What was taken before an error is left open.
pub fn take_lines<R: Read, T: TakesLines, W: Write>(
    input: &mut R,
    taker: &mut T,
    out: &mut W,
) -> io::Result<()>
    ensures { OnOk result (TakesAll T.takes (R.remaining input.old) (R.remaining input.new) taker.old (W.contents out.old) taker.new (W.contents out.new)) }
{
    let mut line = LineBuffer::new();
    take_chunks(input, taker, &mut line, out)?;
    if line.is_started() {
        taker.take_line(line.line(), out)?;
    }
    Ok(())
}
