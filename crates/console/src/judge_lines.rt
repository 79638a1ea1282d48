// The program that answers lines with reply lines.
ghost use Rattle.std.specs.Prelude.{[], ◌∷◌, ◌++◌, OnOk};
ghost use Rattle.std.specs.Io.KnownBytes.{Appends};
ghost use Rattle.lane_yard.specs.Meaning.{lanes_of};
ghost use Rattle.replies.specs.Answers.{line_of, refused};
ghost use Rattle.yard_file.specs.Refusals.{number_of, told_by};
ghost use Rattle.console.specs.Replying.{AllReplied, Replies};

use crate::files::load_yard;
use crate::input::{TakesLines, take_lines};
use lane_yard::yards::LaneYard;
use replies::{LONGEST_REPLY, REFUSAL_REPLY};
use session::sessions::Session;
use std::alloc::Global;
use std::io;
use std::io::{BufWriter, Read, Write};
use yard_file::refusal::FileRefusal;

// Writes a reply and its newline.
fn put_reply<W: Write>(reply: &[u8], out: &mut W) -> io::Result<()>
    ensures { OnOk result (Appends (W.contents out.old) (W.contents out.new) (reply.now ++ 10 ∷ [])) }
{
    out.write_all(reply)?;
    out.write_all(b"\n")
}

// A session that answers each line, with one page for its replies, which has room for every one: a page of fixed size,
// so that no line needs memory.
#[derive(Drop)]
struct Replier {
    session: Session,
    page: [u8; LONGEST_REPLY],
}

impl TakesLines for Replier {
    ghost takes = { λ s line before after s'. Replies s.session line before after s'.session };

    fn take_line<W: Write>(&mut self, line: &[u8], out: &mut W) -> io::Result<()> {
        let count = self.session.reply(line, &mut self.page);
        put_reply(&self.page[..count], out)
    }
}

// A session takes lines by itself too, with a page for each reply.
impl TakesLines for Session {
    ghost takes = { λ s line before after s'. Replies s line before after s' };

    fn take_line<W: Write>(&mut self, line: &[u8], out: &mut W) -> io::Result<()> {
        let mut page = [0; LONGEST_REPLY];
        let count = self.reply(line, &mut page);
        put_reply(&page[..count], out)
    }
}

// Opens a sheet beside the yard, and answers every line of the input with its reply. What was replied before an
// error is left open.
pub fn answer_lines<R: Read, W: Write>(
    heap: Global,
    yard: LaneYard,
    input: &mut R,
    out: &mut W,
) -> io::Result<()>
    ensures { OnOk result (AllReplied (lanes_of yard) (R.remaining input.old) (R.remaining input.new) (W.contents out.old) (W.contents out.new)) }
{
    let session = Session::open(heap, yard)?;
    let mut replier = Replier {
        session,
        page: [0; LONGEST_REPLY],
    };
    take_lines(input, &mut replier, out)
}

// Writes the one reply to a yard that is refused, from a page of fixed size too.
fn refuse_yard<W: Write>(refusal: FileRefusal, out: &mut W) -> io::Result<()>
    ensures { OnOk result (Appends (W.contents out.old) (W.contents out.new) (line_of (refused (number_of refusal) (told_by refusal) 0) ++ 10 ∷ [])) }
{
    let mut page = [0; REFUSAL_REPLY];
    let count = refusal.write(&mut page).unwrap();
    put_reply(&page[..count], out)
}

// Reads `yard.hex`, then answers standard input line by line on standard output.
pub fn run(rt: &HostRuntime) -> io::Result<()> {
    let mut out = BufWriter::new(rt.alloc(), rt.stdout())?;
    let mut yard = LaneYard::new(rt.alloc())?;
    match load_yard(rt, &mut yard)? {
        Ok(()) => answer_lines(rt.alloc(), yard, &mut rt.stdin(), &mut out)?,
        Err(refusal) => refuse_yard(refusal, &mut out)?,
    }
    out.flush()
}
