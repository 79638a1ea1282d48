// Reading the file of the yard.
ghost use Rattle.std.specs.Prelude.{◌≡◌, ℕ, List, ◌++◌, IfOk, OnErr, OnOk};
ghost use Rattle.std.specs.Io.KnownBytes.{Consumes, IsAtEnd};
ghost use Rattle.yard_file.specs.Files.{HasRead};
ghost use Rattle.console.specs.Loading.{FileLaid, SomeLinesLaid, WholeOrNone};

use crate::input::{CHUNK, too_long};
use lane_yard::yards::LaneYard;
use std::alloc::{AllocError, Global};
use std::fs::File;
use std::io;
use std::io::Read;
use yard_file::files::YardFile;
use yard_file::refusal::FileRefusal;

// Takes the file to its end. A loop of its own, as that over the lines: nothing would be known of what a closure changed,
// had the two one loop that calls it.
fn feed<R: Read>(file: &mut R, read: &mut YardFile) -> io::Result<()>
    ensures { (bytes : List ℕ) → HasRead read.old bytes → (more : List ℕ) × HasRead read.new (bytes ++ more) × OnOk result (Consumes (R.remaining file.old) (R.remaining file.new) more × IsAtEnd (R.remaining file.new)) }
{
    let mut chunk = [0; CHUNK];
    for _ in 0..u64::MAX {
        let count = file.read(&mut chunk)?;
        if count == 0 {
            return Ok(());
        }
        read.read(&chunk[..count]);
    }
    Err(too_long())
}

// What is read of a file. A file that cannot be read counts as empty, also where reading fails after some of it was read.
fn read_whole<R: Read + Drop>(heap: Global, file: io::Result<R>) -> Result<YardFile, AllocError>
    ensures { IfOk result (λ read. WholeOrNone R.remaining file read) }
{
    let mut read = YardFile::new(heap)?;
    if let Ok(mut file) = file
        && feed(&mut file, &mut read).is_err()
    {
        read = YardFile::new(heap)?;
    }
    Ok(read)
}

// Lays the lanes of a file, which counts as empty where it cannot be read.
// The error of the outer result ends a program; that of the inner one is the one reply of the program.
pub fn lay_file<R: Read + Drop>(
    heap: Global,
    file: io::Result<R>,
    yard: &mut LaneYard,
) -> Result<Result<(), FileRefusal>, AllocError>
    ensures laid { IfOk result (λ laid. FileLaid R.remaining file yard.old yard.new laid) }
    ensures stands { OnErr result (yard.new ≡ yard.old) }
{
    let read = read_whole(heap, file)?;
    Ok(read.lay(yard))
}

// Lays the lanes of `yard.hex` in the current folder, as `lay_file` does.
pub fn load_yard(
    rt: &HostRuntime,
    yard: &mut LaneYard,
) -> Result<Result<(), FileRefusal>, AllocError>
    ensures laid { IfOk result (λ laid. SomeLinesLaid yard.old yard.new laid) }
    ensures stands { OnErr result (yard.new ≡ yard.old) }
{
    lay_file(rt.alloc(), File::open(rt, "yard.hex"), yard)
}
