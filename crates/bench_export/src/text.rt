// Lines that are read and written back.
ghost use Rattle.std.specs.Prelude.{◌≡◌, ◌+◌, ◌-◌, ◌≤◌, length, if◌then◌else◌, nat_le};
ghost use Rattle.bench_export.specs.Copies.{Copied, input_of, written_back};
ghost use Rattle.lines.specs.Pages.{written};
ghost use Rattle.lines.specs.Reading.{reading};

use lines::entry::Input;
use lines::read::read_entry;
use lines::write::write_entry;

// Reads a line and writes its entry into the page from the position on, with a newline; answers the position after it.
// A line that is refused is left out, and so is one that has no room with its newline.
fn copy_line(line: &[u8], input: Input, page: &mut [u8], at: usize) -> usize
    requires { at ≤ length page.old }
    ensures after { page.new ≡ (if nat_le (length (written_back (reading input line.now))) (length page.old - at) then written page.old at (written_back (reading input line.now)) else page.old) }
    ensures position { result ≡ (if nat_le (length (written_back (reading input line.now))) (length page.old - at) then at + length (written_back (reading input line.now)) else at) }
{
    let Ok(entry) = read_entry(line, input) else {
        return at;
    };
    // The last byte is kept for the newline.
    let Some(room) = page.len().checked_sub(1) else {
        return at;
    };
    let Ok(count) = write_entry(&entry, &mut page[..room], at) else {
        return at;
    };
    page[at + count] = b'\n';
    at + count + 1
}

// Reads each line of the text and writes its entry into the page; answers how many bytes were written. What follows
// the last newline is no line.
fn copy(text: &[u8], input: Input, page: &mut [u8]) -> usize
    ensures copied { Copied input text.now page.old page.new result }
    ensures within { result ≤ length page.new }
{
    let mut at = 0;
    for line in text.split_inclusive(|byte| *byte == b'\n') {
        if let [line @ .., b'\n'] = line {
            at = copy_line(line, input, page, at);
        }
    }
    at
}

// Reads each line of the text, as a line of a yard or else of a sheet, and writes its entry into the page, with a
// newline; lines that are refused are left out, and those that have no room. Answers how many bytes were written.
#[unsafe(no_mangle)]
pub extern "C" fn vozhdeka_copy_lines(text: &[u8], of_yard: bool, page: &mut [u8]) -> usize
    ensures copied { Copied (input_of of_yard) text.now page.old page.new result }
    ensures within { result ≤ length page.new }
{
    let input = if of_yard { Input::Yard } else { Input::Sheet };
    copy(text, input, page)
}
