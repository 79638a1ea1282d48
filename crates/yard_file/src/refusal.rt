// Why the file of a yard is refused.
ghost use Rattle.std.specs.Prelude.{◌≡◌, ◌≤◌, length, is_ok, IfOk, IsOk, if◌then◌else◌};
ghost use Rattle.lines.specs.Pages.{written};
ghost use Rattle.replies.specs.Answers.{line_of, refused, writing};
ghost use Rattle.replies.specs.Replies.{answer_of};
ghost use Rattle.yard_file.specs.Refusals.{number_of, told_by};
ghost use Rattle.yard_file.specs.declared.refusal.FileRefusal.TheVariants.{Lay};

use lane_yard::refusal::LayRefusal;
use lines::refusal::{LineRefusal, WriteRefusal};
use replies::reply::Reply;

#[derive(Clone, Copy, PartialEq, Eq, Debug)]
pub enum FileRefusal {
    // A line cannot be read.
    Line { why: LineRefusal },
    // The lanes cannot be laid.
    Lay { why: LayRefusal },
}

impl FileRefusal {
    // The number of the refusal: that of the refusal within.
    pub fn number(&self) -> u8
        ensures { result ≡ number_of self.now }
    {
        match self {
            FileRefusal::Line { why } => why.number(),
            FileRefusal::Lay { why } => why.number(),
        }
    }

    // What the refusal tells: the column of a bad digit, the index of a lane, or 0.
    pub fn told(&self) -> u16
        ensures { result ≡ told_by self.now }
    {
        match self {
            FileRefusal::Line { why } => why.told(),
            FileRefusal::Lay { why } => why.told(),
        }
    }

    // Writes the reply of the refusal to the front of the page, which has room for it if it has 10 bytes.
    // A session writes its own refusals apart: those tell two numbers, these one.
    pub fn write(&self, page: &mut [u8]) -> Result<usize, WriteRefusal>
        ensures value { result ≡ writing page.old 0 (refused (number_of self.now) (told_by self.now) 0) }
        ensures after { page.new ≡ (if is_ok result then written page.old 0 (line_of (refused (number_of self.now) (told_by self.now) 0)) else page.old) }
        ensures room { 10 ≤ length page.old → IsOk result }
        ensures within { IfOk result (λ n. n ≤ length page.old) }
    {
        Reply::from(*self).write(page, 0)
    }
}

impl From<LayRefusal> for FileRefusal {
    ghost from_gives = { λ why refusal. refusal ≡ Lay why };

    fn from(why: LayRefusal) -> FileRefusal {
        FileRefusal::Lay { why }
    }
}

// The reply of a refusal by its number and what it tells.
impl From<FileRefusal> for Reply<'_> {
    ghost from_gives = { λ refusal reply. answer_of reply ≡ refused (number_of refusal) (told_by refusal) 0 };

    fn from(refusal: FileRefusal) -> Self {
        Reply::Refused {
            number: refusal.number(),
            first: refusal.told(),
            second: 0,
        }
    }
}
