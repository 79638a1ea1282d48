// A judging whose verdict is a value: no pages to prepare.
ghost use Rattle.std.specs.Prelude.{◌≡◌, [], length, IfOk, Some, Err, ◌≢◌};
ghost use Rattle.judge.specs.Findings.{Finds};
ghost use Rattle.judge.specs.Shown.{shown_by};
ghost use Rattle.judge.specs.Settling.{Within};
ghost use Rattle.judge.specs.declared.refusal.JudgeRefusal.TheVariants.{PageTooShort};
ghost use Rattle.sheet.specs.Sheets.{sheet_book};
ghost use Rattle.play.specs.Verdicts.{finding_of};

use crate::answers::{SheetRefusal, Verdict};
use judge::judging::judge;
use judge::refusal::JudgeRefusal;
use sheet::limits::MOST_STOPS;
use sheet::sheets::Sheet;
use std::alloc::{AllocError, Global};
use yard::{FollowingRule, Yard};

// The refusal with the whole ring, of which the judging tells the length.
// No conversion by `From`: a copy of the ring needs memory and reads the ring page.
fn whole_refusal(heap: Global, why: JudgeRefusal, ring: &[u16]) -> Result<SheetRefusal, AllocError>
    requires page { why ≢ PageTooShort }
    requires within { Within 0 (length ring.now) (Err why) }
    ensures { IfOk result (λ refusal. shown_by [] ring.now (Err why) ≡ Some (finding_of (Err refusal))) }
{
    match why {
        JudgeRefusal::PageTooShort => unreachable!(),
        JudgeRefusal::NotAtGoal { carrier } => Ok(SheetRefusal::NotAtGoal { carrier }),
        JudgeRefusal::NoLane { stop } => Ok(SheetRefusal::NoLane { stop }),
        JudgeRefusal::Undecided { stop, later } => Ok(SheetRefusal::Undecided { stop, later }),
        JudgeRefusal::HeadOn { stop, other } => Ok(SheetRefusal::HeadOn { stop, other }),
        JudgeRefusal::Ring { length } => {
            let stops = Vec::from_slice(heap, &ring[..usize::from(length)])?;
            Ok(SheetRefusal::Ring { stops })
        }
    }
}

// Judges the sheet in the yard under the rule.
pub fn judge_sheet<Y: Yard, R: FollowingRule>(
    heap: Global,
    sheet: &Sheet,
    yard: &Y,
    rule: &R,
) -> Result<Verdict, AllocError>
    ensures { IfOk result (λ v. Finds (record { lanes = Y.Yard.lanes yard.now; gap = R.FollowingRule.gaps rule.now; largest = R.FollowingRule.LARGEST_GAP }) (sheet_book sheet.now) (finding_of v)) }
{
    // Pages for any sheet; judging lends its pages from the caller.
    let mut timetable = [0; MOST_STOPS];
    let mut ring = [0; MOST_STOPS];
    match judge(sheet, yard, rule, &mut timetable, &mut ring) {
        Ok(stops) => {
            let timetable = Vec::from_slice(heap, &timetable[..usize::from(stops)])?;
            Ok(Ok(timetable))
        }
        Err(why) => {
            let refusal = whole_refusal(heap, why, &ring)?;
            Ok(Err(refusal))
        }
    }
}
