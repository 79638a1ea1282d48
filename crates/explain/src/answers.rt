// What came of an entry, in words.
use crate::records::Records;
use crate::sheet_lags::Judging;
use crate::site::Site;
use crate::text::Refused;
use crate::timetables::Timetable;
use lines::entry::Entry;
use replies::reply::Reply;
use session::answer::{Answer, Refusal};
use session::sessions::Session;
use std::io;
use std::io::Write;
use yard::rules::AnyRule;

impl Records<'_> {
    // Writes that a carrier is accepted, and its first stop. Each kind of entry has a text of its own.
    fn write_carrier(&self, number: u16, out: &mut impl Write) -> io::Result<()> {
        write!(out, "accepted as carrier {number}")?;
        if let Some(carrier) = self.carriers.get(usize::from(number)) {
            write!(out, ", with stop {} at its start", carrier.last_stop)?;
            if carrier.is_at_goal() {
                write!(out, ", which is its goal")?;
            }
        }
        writeln!(out)
    }

    // Writes that a stop is accepted, and whether the route has reached its goal.
    fn write_stop(&self, carrier: u8, number: u16, out: &mut impl Write) -> io::Result<()> {
        write!(out, "accepted as stop {number}")?;
        if let Some(carrier) = self.carriers.get(usize::from(carrier))
            && carrier.is_at_goal()
        {
            write!(out, ", its goal")?;
        }
        writeln!(out)
    }

    // Writes that an entry or a striking is accepted.
    fn write_accepted(&self, entry: Entry, number: u16, out: &mut impl Write) -> io::Result<()> {
        match (entry, number) {
            (Entry::Carrier { .. }, _) => self.write_carrier(number, out),
            (Entry::Stop { carrier, .. }, _) => self.write_stop(carrier, number, out),
            (_, 1) => writeln!(out, "accepted, 1 precedence stands"),
            _ => writeln!(out, "accepted, {number} precedences stand"),
        }
    }
}

impl Site<'_> {
    // Writes that an entry is refused, and why.
    fn write_refused(
        &self,
        entry: Entry,
        refusal: Refusal,
        out: &mut impl Write,
    ) -> io::Result<()> {
        let number = refusal.number();
        match refusal {
            Refusal::Entry { why } => {
                let cause = self.records.cause_of(entry, why);
                writeln!(out, "{}", Refused { number, cause })
            }
            Refusal::Judge { why } => {
                let cause = self.judge_cause_of(why);
                writeln!(out, "{}", Refused { number, cause })
            }
            Refusal::Line { .. } => writeln!(out, "REFUSED ({number})"),
        }
    }

    // Writes what a reply lists, where it lists anything: the arrivals of a pass, or the stops of a ring. Only a
    // judging under a rule within the limits finds a ring.
    fn write_listed(self, entry: Entry, reply: Reply<'_>, out: &mut impl Write) -> io::Result<()> {
        match (reply, entry) {
            (Reply::Passed { arrivals }, _) => {
                Timetable {
                    site: self,
                    arrivals,
                }
                .write(out)
            }
            (Reply::Ring { stops }, Entry::Judge { rule }) => match AnyRule::try_from(rule) {
                Ok(rule) => Judging { site: self, rule }.write_ring(stops, out),
                Err(_) => Ok(()),
            },
            _ => Ok(()),
        }
    }
}

// Writes what came of an entry.
pub(crate) fn write_answer(
    session: &Session,
    entry: Entry,
    outcome: Result<Answer, Refusal>,
    out: &mut impl Write,
) -> io::Result<()> {
    let site = Site::of(session);
    let reply = session.reply_to(outcome);
    match outcome {
        Ok(Answer::Accepted { number }) => site.records.write_accepted(entry, number, out),
        Ok(Answer::Passed { .. }) => site.write_listed(entry, reply, out),
        Err(refusal) => {
            site.write_refused(entry, refusal, out)?;
            site.write_listed(entry, reply, out)
        }
    }
}
