// The session and its calls.
ghost use Rattle.std.specs.Prelude.{◌≡◌, ◌≤◌, IsTrue, take, IfOk};
ghost use Rattle.lines.specs.Entries.{Lawful as LawfulEntry, has, kind_of};
ghost use Rattle.lines.specs.Reading.{reading};
ghost use Rattle.lines.specs.declared.entry.Input.TheVariants.{Sheet as SheetInput};
ghost use Rattle.replies.specs.Answers.{line_of};
ghost use Rattle.replies.specs.Replies.{answer_of};
ghost use Rattle.sheet.specs.Book.{opened};
ghost use Rattle.sheet.specs.Histories.History.{opening};
ghost use Rattle.session.specs.Answers.{Answered, LineAnswered, OnPages, Replied, Ruled, entered_as};
ghost use Rattle.session.specs.Replies.{EntryReplied, JudgingReplied, Lawful, LineReplied, setting_of};
ghost use Rattle.session.specs.Sessions.{Blank, book_in, lanes_in, pages_over, said_in};
ghost use Rattle.session.specs.Writing.{Continues, ReplyWritten, Stand};
ghost use Rattle.yard.specs.Rules.{gap_of};

use crate::answer::{Answer, Refusal};
use judge::judging::judge;
use judge::refusal::JudgeRefusal;
use lane_yard::yards::LaneYard;
use lines::entry::{Entry, Input, Rule};
use lines::read::read_entry;
use lines::refusal::LineRefusal;
use replies::LONGEST_REPLY;
use replies::reply::Reply;
use sheet::limits::MOST_STOPS;
use sheet::refusal::EntryRefusal;
use sheet::sheets::Sheet;
use std::alloc::{AllocError, Global};
use yard::rules::AnyRule;

// A yard and a sheet, with pages for judging that are long enough for every sheet: arrays of fixed size, so that no
// line needs memory.
#[derive(Drop)]
pub struct Session {
    yard: LaneYard,
    sheet: Sheet,
    timetable: [u32; MOST_STOPS],
    ring: [u16; MOST_STOPS],
}

// The first so many numbers of a page, or all of them where it has fewer.
fn front<T>(page: &[T], count: u16) -> &[T]
    ensures { result.now ≡ take count page.now }
{
    &page[..page.len().min(usize::from(count))]
}

// What comes of an entry or a striking.
fn entered(outcome: Result<u16, EntryRefusal>) -> Result<Answer, Refusal>
    ensures value { result ≡ entered_as outcome }
    ensures within { OnPages result }
{
    Ok(Answer::Accepted { number: outcome? })
}

impl Session {
    // Opens a sheet beside the yard; both pages are blank.
    pub fn open(heap: Global, yard: LaneYard) -> Result<Session, AllocError>
        ensures opens { IfOk result (λ s. (book_in s ≡ opened) × (s.yard ≡ yard)) }
        ensures begins { IfOk result (λ s. Lawful (lanes_in s) opening (book_in s)) }
        ensures blank { IfOk result (λ s. Blank s.timetable × Blank s.ring) }
    {
        let sheet = Sheet::open(heap)?;
        Ok(Session {
            yard,
            sheet,
            timetable: [0; MOST_STOPS],
            ring: [0; MOST_STOPS],
        })
    }

    // The yard.
    pub fn yard(&self) -> &LaneYard
        ensures { result.now ≡ self.now.yard }
    {
        &self.yard
    }

    // The sheet.
    pub fn sheet(&self) -> &Sheet
        ensures { result.now ≡ self.now.sheet }
    {
        &self.sheet
    }

    // The timetable of the last judging that passed, by stop number.
    pub fn timetable(&self) -> &[u32]
        ensures { result.now ≡ self.now.timetable }
    {
        &self.timetable
    }

    // The ring of the last judging that found one.
    pub fn ring(&self) -> &[u16]
        ensures { result.now ≡ self.now.ring }
    {
        &self.ring
    }

    // Judges the sheet in the yard under the rule that a line names.
    // Here and below `same`, `stand` and `within` are clauses of their own: a caller asks for each alone.
    // Not inlined: a judging has about 130 KiB of tables on the stack, which a line that asks for none would make room
    // for too.
    #[inline(never)]
    fn judge_under(&mut self, rule: Rule) -> Result<Answer, Refusal>
        ensures ruled { Ruled (lanes_in self.old) (book_in self.old) (book_in self.new) (pages_over self.old self.new) rule result }
        ensures replied { gap_of rule ≤ 36000 → JudgingReplied (setting_of (lanes_in self.old) rule) (book_in self.old) (said_in self.new result) }
        ensures same { (self.new.sheet ≡ self.old.sheet) × (self.new.yard ≡ self.old.yard) }
        ensures stand { Stand (pages_over self.old self.new) result }
        ensures within { OnPages result }
    {
        let rule = AnyRule::try_from(rule)?;
        let stops = judge(
            &self.sheet,
            &self.yard,
            &rule,
            &mut self.timetable,
            &mut self.ring,
        )?;
        Ok(Answer::Passed { stops })
    }

    // Does what the entry says. The kinds carry different data, so each arm makes its own call.
    fn take(&mut self, entry: Entry) -> Result<Answer, Refusal>
        ensures answers { Answered (lanes_in self.old) (book_in self.old) (book_in self.new) (pages_over self.old self.new) entry result }
        ensures replied { LawfulEntry entry → IsTrue (has SheetInput (kind_of entry)) → EntryReplied (lanes_in self.old) (book_in self.old) entry (said_in self.new result) (book_in self.new) }
        ensures same { self.new.yard ≡ self.old.yard }
        ensures stand { Stand (pages_over self.old self.new) result }
        ensures within { OnPages result }
    {
        match entry {
            Entry::Carrier { start, goal } => entered(self.sheet.enter_carrier(start, goal)),
            Entry::Stop { carrier, place } => entered(self.sheet.enter_stop(carrier, place)),
            Entry::Precedence {
                first,
                second,
                place,
            } => entered(self.sheet.enter_precedence(first, second, place)),
            Entry::Strike {
                first,
                second,
                place,
            } => entered(self.sheet.strike_precedence(first, second, place)),
            Entry::Judge { rule } => self.judge_under(rule),
            Entry::Lane { .. } => Err(LineRefusal::UnknownKind.into()),
        }
    }

    // Answers a line of the sheet's input.
    pub fn answer(&mut self, line: &[u8]) -> Result<Answer, Refusal>
        ensures answers { LineAnswered (lanes_in self.old) (book_in self.old) (book_in self.new) (pages_over self.old self.new) (reading SheetInput line.now) result }
        ensures replied { LineReplied (lanes_in self.old) (book_in self.old) line.now (said_in self.new result) (book_in self.new) }
        ensures goes_on { Continues (lanes_in self.old) (book_in self.old) line.now (line_of (said_in self.new result)) (book_in self.new) }
        ensures same { self.new.yard ≡ self.old.yard }
        ensures stand { Stand (pages_over self.old self.new) result }
        ensures within { OnPages result }
    {
        let entry = read_entry(line, Input::Sheet)?;
        self.take(entry)
    }

    // The reply of an answer, with the session's pages. An answer of this session lists no more numbers than a page
    // has; of any other the reply has all that are on the page.
    pub fn reply_to(&self, answer: Result<Answer, Refusal>) -> Reply<'_>
        ensures { answer_of result ≡ said_in self.now answer }
    {
        match answer {
            Ok(Answer::Accepted { number }) => Reply::Accepted { number },
            Ok(Answer::Passed { stops }) => Reply::Passed {
                arrivals: front(&self.timetable, stops),
            },
            Err(
                Refusal::Judge {
                    why: JudgeRefusal::Ring { length },
                },
            ) => Reply::Ring {
                stops: front(&self.ring, length),
            },
            Err(refusal) => refusal.into(),
        }
    }

    // Answers a line of the sheet's input with its reply, at the front of the page, and says how long the reply is. The
    // page has room for every reply, so that no line is refused once it has been acted on.
    pub fn reply(&mut self, line: &[u8], page: &mut [u8; LONGEST_REPLY]) -> usize
        ensures replies { Replied (lanes_in self.old) (book_in self.old) (book_in self.new) (pages_over self.old self.new) (reading SheetInput line.now) page.old page.new result }
        ensures written { ReplyWritten (lanes_in self.old) (book_in self.old) (book_in self.new) line.now page.old page.new result }
        ensures goes_on { Continues (lanes_in self.old) (book_in self.old) line.now (take result page.new) (book_in self.new) }
        ensures within { result ≤ 8198 }
        ensures same { self.new.yard ≡ self.old.yard }
    {
        let answer = self.answer(line);
        self.reply_to(answer).write(page, 0).unwrap()
    }
}
