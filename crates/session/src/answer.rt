// What a line is answered.
ghost use Rattle.std.specs.Prelude.{◌≡◌};
ghost use Rattle.lines.specs.declared.refusal.LineRefusal.TheVariants.{BadRule};
ghost use Rattle.replies.specs.Answers.{refused};
ghost use Rattle.replies.specs.Replies.{answer_of};
ghost use Rattle.session.specs.Refusals.{number_of, told_by};
ghost use Rattle.session.specs.declared.answer.Refusal.TheVariants.{Line, Entry, Judge};

use judge::refusal::JudgeRefusal;
use lines::refusal::LineRefusal;
use replies::reply::Reply;
use sheet::refusal::EntryRefusal;
use yard::refusal::GapRefusal;

// Why a line is refused.
#[derive(Clone, Copy, PartialEq, Eq, Debug)]
pub enum Refusal {
    // The line cannot be read.
    Line { why: LineRefusal },
    // The sheet refuses the entry or the striking.
    Entry { why: EntryRefusal },
    // The sheet does not pass; for a ring, the session's ring page has its stops.
    Judge { why: JudgeRefusal },
}

impl Refusal {
    // The number of the refusal: that of the refusal within.
    pub fn number(&self) -> u8
        ensures { result ≡ number_of self.now }
    {
        match self {
            Refusal::Line { why } => why.number(),
            Refusal::Entry { why } => why.number(),
            Refusal::Judge { why } => why.number(),
        }
    }

    // What the refusal tells, 0 where there is nothing.
    pub fn told(&self) -> (u16, u16)
        ensures { result ≡ told_by self.now }
    {
        match self {
            Refusal::Line { why } => (why.told(), 0),
            Refusal::Entry { .. } => (0, 0),
            Refusal::Judge { why } => why.told(),
        }
    }
}

impl From<LineRefusal> for Refusal {
    ghost from_gives = { λ why refusal. refusal ≡ Line why };

    fn from(why: LineRefusal) -> Refusal {
        Refusal::Line { why }
    }
}

impl From<EntryRefusal> for Refusal {
    ghost from_gives = { λ why refusal. refusal ≡ Entry why };

    fn from(why: EntryRefusal) -> Refusal {
        Refusal::Entry { why }
    }
}

impl From<JudgeRefusal> for Refusal {
    ghost from_gives = { λ why refusal. refusal ≡ Judge why };

    fn from(why: JudgeRefusal) -> Refusal {
        Refusal::Judge { why }
    }
}

// A gap that is too long is no rule that a line can name.
impl From<GapRefusal> for Refusal {
    ghost from_gives = { λ _ refusal. refusal ≡ Line BadRule };

    fn from(_: GapRefusal) -> Refusal {
        LineRefusal::BadRule.into()
    }
}

// The reply of a refusal by its number and what it tells. For a ring a session replies with the ring itself.
impl From<Refusal> for Reply<'_> {
    ghost from_gives = { λ refusal reply. answer_of reply ≡ refused (number_of refusal) (told_by refusal).0 (told_by refusal).1 };

    fn from(refusal: Refusal) -> Self {
        let (first, second) = refusal.told();
        Reply::Refused {
            number: refusal.number(),
            first,
            second,
        }
    }
}

// What comes of a line of a sheet that is not refused.
#[derive(Clone, Copy, PartialEq, Eq, Debug)]
pub enum Answer {
    // The entry or the striking is accepted, with this number.
    Accepted { number: u16 },
    // The sheet passes, and the session's timetable has the arrivals at its stops.
    Passed { stops: u16 },
}
