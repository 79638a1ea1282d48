// Sheets that are entered and judged many times over.
ghost use Rattle.std.specs.Prelude.{◌≡◌, ◌<◌, ◌≤◌, length, IfOk, MatchResult};
ghost use Rattle.bench_export.specs.Entering.{AllEntered, NotFilled};
ghost use Rattle.bench_export.specs.Judging.{InYard, JudgedOften, Laid, NotLaid, NotSetOut, SetOut, Tells, pages};
ghost use Rattle.bench_export.specs.Numbers.{calls_in, lanes_in};
ghost use Rattle.bench_export.specs.Rules.{setting_of};
ghost use Rattle.grid_yard.specs.Meaning.{lanes_of as grid_lanes};
ghost use Rattle.lane_yard.specs.Meaning.{lanes_of as yard_lanes};
ghost use Rattle.lines.specs.Reading.{rule_of as rule_told};
ghost use Rattle.sheet.specs.Book.{opened};
ghost use Rattle.sheet.specs.Sheets.{sheet_book};

use crate::fault::{Fault, code_of};
use crate::lists::{fill, lanes_of};
use grid_yard::plan::Plan;
use grid_yard::yards::GridYard;
use judge::judging::judge;
use judge::refusal::JudgeRefusal;
use lane_yard::yards::LaneYard;
use sheet::sheets::Sheet;
use std::alloc::Global;
use yard::rules::{FixedGap, FullLane, LaneLessOne, Rule};
use yard::{FollowingRule, Yard};

// A sheet that is measured: its entries, the rule of its judgings, and how often it is entered and judged. The two
// pages are no part of it: contracts speak of the timetable as it is left.
#[derive(Clone, Copy)]
struct Run<'a> {
    // Fours: kind, then the fields in the order of a line, then 0 where there are fewer than three.
    entries: &'a [u16],
    sheets: u32,
    rule: Rule<u16>,
    judgings: u32,
}

// The rule of a number and a gap, as a line of a judging has them. The C interface has numbers; every other one is that
// of a fixed gap.
fn rule_of(number: u16, gap: u16) -> Rule<u16>
    ensures { result ≡ rule_told number gap }
{
    match number {
        0 => Rule::FullLane,
        1 => Rule::LaneLessOne,
        _ => Rule::FixedGap { gap },
    }
}

// A yard with the lanes, laid so many times. The loop counts, as it repeats one call.
fn lay(heap: Global, lanes: &[u16], layings: u32) -> Result<LaneYard, Fault>
    ensures { MatchResult result (λ yard. Laid layings (lanes_in lanes.now) (yard_lanes yard)) (λ fault. NotLaid layings (lanes_in lanes.now) fault) }
{
    let lanes = lanes_of(heap, lanes)?;
    let mut yard = LaneYard::new(heap)?;
    for _ in 0..layings {
        yard.lay(lanes.as_slice())?;
    }
    Ok(yard)
}

// A yard with the grid set out.
fn set_out(heap: Global, plan: Plan, closed: &[u64]) -> Result<GridYard, Fault>
    ensures { MatchResult result (λ yard. SetOut plan closed.now (grid_lanes yard)) (λ fault. NotSetOut plan closed.now fault) }
{
    let mut yard = GridYard::new(heap)?;
    yard.set_out(plan, closed)?;
    Ok(yard)
}

impl Run<'_> {
    // The sheet with all entries, entered so many times and at least once. The loop counts, here and in `judge_often`,
    // as it repeats one call.
    fn sheet(&self, heap: Global) -> Result<Sheet, Fault>
        ensures { MatchResult result (λ sheet. AllEntered opened (calls_in self.now.entries.now) (sheet_book sheet)) (λ fault. NotFilled (calls_in self.now.entries.now) fault) }
    {
        let (entries, _) = self.entries.as_chunks::<4>();
        for _ in 1..self.sheets {
            let _ = fill(heap, entries)?;
        }
        fill(heap, entries)
    }

    // Judges the sheet so many times, and answers as the last judging does; no judging answers 0.
    fn judge_often<Y: Yard, R: FollowingRule>(
        &self,
        sheet: &Sheet,
        yard: &Y,
        rule: &R,
        timetable: &mut [u32],
        ring: &mut [u16],
    ) -> Result<u16, JudgeRefusal>
        ensures judged { JudgedOften (record { lanes = Y.Yard.lanes yard.now; gap = R.FollowingRule.gaps rule.now; largest = R.FollowingRule.LARGEST_GAP }) (sheet_book sheet.now) self.now.judgings timetable.old ring.old timetable.new ring.new result }
        ensures within { IfOk result (λ stops. stops ≤ length timetable.new) }
    {
        let mut answer = Ok(0);
        for _ in 0..self.judgings {
            answer = judge(sheet, yard, rule, timetable, ring);
        }
        answer
    }

    // Enters the sheet and judges it in the yard. Each arm runs the judging that is made for one rule, so that no
    // switch is inside what is measured.
    fn in_yard<Y: Yard>(
        &self,
        heap: Global,
        yard: &Y,
        timetable: &mut [u32],
        ring: &mut [u16],
    ) -> Result<u16, Fault>
        ensures comes { InYard (setting_of (Y.Yard.lanes yard.now) self.now.rule) (calls_in self.now.entries.now) self.now.judgings (pages timetable.old ring.old timetable.new ring.new) result }
        ensures within { IfOk result (λ stops. stops ≤ length timetable.new) }
    {
        let sheet = self.sheet(heap)?;
        let answer = match self.rule {
            Rule::FullLane => self.judge_often(&sheet, yard, &FullLane, timetable, ring),
            Rule::LaneLessOne => self.judge_often(&sheet, yard, &LaneLessOne, timetable, ring),
            Rule::FixedGap { gap } => {
                // A gap above 36,000 is judged as a gap of 0.
                let fixed = FixedGap::try_from(gap).unwrap_or(FixedGap::new());
                self.judge_often(&sheet, yard, &fixed, timetable, ring)
            }
        };
        Ok(answer?)
    }
}

// Lays the lanes so many times, enters the sheet so many times and at least once, and judges it so many times. The
// lanes are triples: from, to, travel time. The entries are fours: kind, then the fields in the order of a line, then 0
// where there are fewer than three. A gap above 36,000 is judged as a gap of 0. The answer is 0 where nothing is
// judged; one below 65,536 is a pass, with as many arrivals at the front of the timetable; any other is a fault's.
#[unsafe(no_mangle)]
pub extern "C" fn vozhdeka_judge_lanes(
    heap: Global,
    lanes: &[u16],
    layings: u32,
    entries: &[u16],
    sheets: u32,
    rule: u16,
    gap: u16,
    judgings: u32,
    timetable: &mut [u32],
    ring: &mut [u16],
) -> u32
    ensures tells { Tells (Laid layings (lanes_in lanes.now)) (NotLaid layings (lanes_in lanes.now)) (calls_in entries.now) (rule_told rule gap) judgings (pages timetable.old ring.old timetable.new ring.new) result }
    ensures within { result < 65536 → result ≤ length timetable.new }
{
    let run = Run {
        entries,
        sheets,
        rule: rule_of(rule, gap),
        judgings,
    };
    match lay(heap, lanes, layings) {
        Ok(yard) => code_of(run.in_yard(heap, &yard, timetable, ring)),
        Err(fault) => code_of(Err(fault)),
    }
}

// The same in a grid, which is set out once. A function of its own, since the C interface has two.
#[unsafe(no_mangle)]
pub extern "C" fn vozhdeka_judge_grid(
    heap: Global,
    rows: u16,
    columns: u16,
    along: u16,
    across: u16,
    closed: &[u64],
    entries: &[u16],
    sheets: u32,
    rule: u16,
    gap: u16,
    judgings: u32,
    timetable: &mut [u32],
    ring: &mut [u16],
) -> u32
    ensures tells { Tells (SetOut (record { rows = rows; columns = columns; along = along; across = across }) closed.now) (NotSetOut (record { rows = rows; columns = columns; along = along; across = across }) closed.now) (calls_in entries.now) (rule_told rule gap) judgings (pages timetable.old ring.old timetable.new ring.new) result }
    ensures within { result < 65536 → result ≤ length timetable.new }
{
    let plan = Plan {
        rows,
        columns,
        along,
        across,
    };
    let run = Run {
        entries,
        sheets,
        rule: rule_of(rule, gap),
        judgings,
    };
    match set_out(heap, plan, closed) {
        Ok(yard) => code_of(run.in_yard(heap, &yard, timetable, ring)),
        Err(fault) => code_of(Err(fault)),
    }
}
