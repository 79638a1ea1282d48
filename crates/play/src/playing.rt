// Playing a list of calls.
ghost use Rattle.std.specs.Prelude.{IfOk};
ghost use Rattle.judge.specs.FindingHistories.{Event, Happens};
ghost use Rattle.sheet.specs.Sheets.{sheet_book};
ghost use Rattle.play.specs.Runs.{IsEvent, Played};

use crate::answers::Answer;
use crate::calls::Call;
use crate::verdicts::judge_sheet;
use sheet::sheets::Sheet;
use std::alloc::{AllocError, Global};
use yard::{FollowingRule, Yard};

// Makes one call on the sheet. The kinds carry different data, so each arm makes its own call.
fn make_call<Y: Yard, R: FollowingRule>(
    heap: Global,
    sheet: &mut Sheet,
    call: &Call<Y, R>,
) -> Result<Answer, AllocError>
    ensures { IfOk result (λ a. (e : Event) × IsEvent Y.Yard.lanes R.FollowingRule.gaps R.FollowingRule.LARGEST_GAP call.now a e × Happens (sheet_book sheet.old) e (sheet_book sheet.new)) }
{
    match call {
        Call::EnterCarrier { start, goal } => Ok(Answer::Entered {
            outcome: sheet.enter_carrier(*start, *goal),
        }),
        Call::EnterStop { carrier, place } => Ok(Answer::Entered {
            outcome: sheet.enter_stop(*carrier, *place),
        }),
        Call::EnterPrecedence {
            first,
            second,
            place,
        } => Ok(Answer::Entered {
            outcome: sheet.enter_precedence(*first, *second, *place),
        }),
        Call::StrikePrecedence {
            first,
            second,
            place,
        } => Ok(Answer::Entered {
            outcome: sheet.strike_precedence(*first, *second, *place),
        }),
        Call::Judge { yard, rule } => Ok(Answer::Judged {
            verdict: judge_sheet(heap, sheet, yard, rule)?,
        }),
    }
}

// Plays the calls on a new sheet, one after another, and answers each. The calls with their answers are a lawful
// history.
pub fn play<Y: Yard, R: FollowingRule>(
    heap: Global,
    calls: &[Call<Y, R>],
) -> Result<Vec<Answer>, AllocError>
    ensures { IfOk result (λ answers. Played Y.Yard.lanes R.FollowingRule.gaps R.FollowingRule.LARGEST_GAP calls.now answers.items) }
{
    let mut sheet = Sheet::open(heap)?;
    let mut answers = Vec::with_capacity(heap, calls.len())?;
    for call in calls {
        answers.push(make_call(heap, &mut sheet, call)?)?;
    }
    Ok(answers)
}
