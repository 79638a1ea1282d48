// Writing the line of an entry.
ghost use Rattle.std.specs.Prelude.{◌≡◌, ℕ, IsTrue, take, drop, is_ok, if◌then◌else◌, Ok, Err, nat_lt};
ghost use Rattle.lines.specs.declared.entry.Entry.TheVariants.{Judge};
ghost use Rattle.lines.specs.declared.refusal.WriteRefusal.TheVariants.{GapTooLong};
ghost use Rattle.lines.specs.Entries.{rule_byte, kind_of, line_of, has};
ghost use Rattle.lines.specs.Pages.{written, writing};
ghost use Rattle.lines.specs.Reading.{reading};
ghost use Rattle.yard.specs.Rules.{gap_of};

use crate::entry::{Entry, Input, Rule};
use crate::page::write_bytes;
use crate::refusal::WriteRefusal;
use yard::limits::LONGEST_GAP;

// The rule byte, and the gap beside it: two fields of a line, as `read_rule` takes them.
fn rule_fields(rule: Rule) -> Result<(u8, u16), WriteRefusal>
    ensures { result ≡ (if nat_lt 36000 (gap_of rule) then Err GapTooLong else Ok (rule_byte rule, gap_of rule)) }
{
    match rule {
        Rule::FullLane => Ok((0x00, 0)),
        Rule::LaneLessOne => Ok((0x01, 0)),
        Rule::FixedGap { gap } if gap <= LONGEST_GAP => Ok((0x02, gap)),
        Rule::FixedGap { .. } => Err(WriteRefusal::GapTooLong),
    }
}

// Writes the line of a judging.
#[tactic(auto, unfolding(crate::specs::Entries::line_of))]
fn write_judge(rule: Rule, page: &mut [u8], at: usize) -> Result<usize, WriteRefusal>
    ensures value { result ≡ writing page.old at (Judge rule) }
    ensures after { page.new ≡ (if is_ok result then written page.old at (line_of (Judge rule)) else page.old) }
    ensures back { (n : ℕ) (input : Input) → result ≡ Ok n → IsTrue (has input 5) → reading input (take n (drop at page.new)) ≡ Ok (Judge rule) }
{
    let (byte, gap) = rule_fields(rule)?;
    let [g1, g0] = gap.to_be_bytes();
    write_bytes(&[0x05, byte, g1, g0], page, at)
}

// Writes the line of an entry into the page from the position `at` on, and answers how many bytes these are. The kinds
// stay bytes: `Entry` is their enum, and the arms are the table of the format.
#[tactic(auto, unfolding(crate::specs::Entries::line_of))]
pub fn write_entry(entry: &Entry, page: &mut [u8], at: usize) -> Result<usize, WriteRefusal>
    ensures value { result ≡ writing page.old at entry.now }
    ensures after { page.new ≡ (if is_ok result then written page.old at (line_of entry.now) else page.old) }
    ensures back { (n : ℕ) (input : Input) → result ≡ Ok n → IsTrue (has input (kind_of entry.now)) → reading input (take n (drop at page.new)) ≡ Ok entry.now }
{
    match *entry {
        Entry::Carrier { start, goal } => {
            let [s1, s0] = start.to_be_bytes();
            let [g1, g0] = goal.to_be_bytes();
            write_bytes(&[0x01, s1, s0, g1, g0], page, at)
        }
        Entry::Stop { carrier, place } => {
            let [p1, p0] = place.to_be_bytes();
            write_bytes(&[0x02, carrier, p1, p0], page, at)
        }
        Entry::Precedence {
            first,
            second,
            place,
        } => {
            let [p1, p0] = place.to_be_bytes();
            write_bytes(&[0x03, first, second, p1, p0], page, at)
        }
        Entry::Strike {
            first,
            second,
            place,
        } => {
            let [p1, p0] = place.to_be_bytes();
            write_bytes(&[0x04, first, second, p1, p0], page, at)
        }
        Entry::Judge { rule } => write_judge(rule, page, at),
        Entry::Lane { from, to, time } => {
            let [f1, f0] = from.to_be_bytes();
            let [t1, t0] = to.to_be_bytes();
            let [m1, m0] = time.to_be_bytes();
            write_bytes(&[0x06, f1, f0, t1, t0, m1, m0], page, at)
        }
    }
}
