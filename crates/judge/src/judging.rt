// The judging of a sheet. Its tables are arrays, since judging takes no memory (a rule of the project).
ghost use Rattle.std.specs.Prelude.{◌≡◌, ℕ, ◌^◌, ◌<◌, ◌≤◌, max, ◌++◌, length, drop, MatchResult, slice_index};
ghost use Rattle.judge.specs.Judged.{judging_of};
ghost use Rattle.judge.specs.JudgedFully.{JudgedFully};
ghost use Rattle.judge.specs.Routing.{PrecedencesClear, PrecedencesRefused, Routed};
ghost use Rattle.judge.specs.Settling.{Settles};
ghost use Rattle.judge.specs.Waits.{Between};
ghost use Rattle.sheet.specs.Sheets.{sheet_book};

use crate::legs::{Leg, NO_LEG, check_goals, find_legs};
use crate::marks::Marks;
use crate::refusal::JudgeRefusal;
use crate::routes::Routes;
use crate::tables::Tables;
use crate::waits::Lags;
use lags::{Unsolved, solve};
use sheet::limits::MOST_STOPS;
use sheet::sheets::Sheet;
use yard::{FollowingRule, Yard};

// Writes the arrivals to the front of the timetable; by index, since the library does not say what
// the page holds after a `zip` over its items.
fn write_timetable(arrivals: &[u64], timetable: &mut [u32])
    requires room { length arrivals.now ≤ length timetable.old }
    requires small { (i : ℕ) → slice_index arrivals.now i < 2 ^ 32 }
    ensures { timetable.new ≡ arrivals.now ++ drop (length arrivals.now) timetable.old }
{
    for (i, arrival) in arrivals.iter().enumerate() {
        timetable[i] = *arrival as u32;
    }
}

// Works out the earliest arrivals from the lags and writes them to the timetable, or finds a ring and writes it to the
// ring page.
fn settle<R: FollowingRule>(
    rule: &R,
    tables: Tables,
    timetable: &mut [u32],
    ring: &mut [u16],
) -> Result<u16, JudgeRefusal>
    requires timetable { length tables.routes.stops.now ≤ length timetable.old }
    requires ring { length tables.routes.stops.now ≤ length ring.old }
    ensures { Settles (Between (R.FollowingRule.gaps rule.now) tables.entry.routes.stops.now tables.entry.legs.now tables.entry.routes.precedences.now) (length tables.entry.routes.stops.now) (max 36000 R.FollowingRule.LARGEST_GAP) (record { timetable = timetable.old; ring = ring.old; timetable_after = timetable.new; ring_after = ring.new }) result }
{
    let mut lags = Lags::new();
    tables.gather_lags(rule, &mut lags);
    let mut arrivals = [0; MOST_STOPS];
    let arrivals = &mut arrivals[0..tables.legs.len()];
    match solve(&lags, arrivals, ring) {
        Ok(()) => {
            write_timetable(arrivals, timetable);
            Ok(arrivals.len() as u16)
        }
        Err(Unsolved::Ring { length }) => Err(JudgeRefusal::Ring { length }),
        Err(Unsolved::Unfit) => unreachable!(),
    }
}

// Refuses the lowest meeting without a precedence, then the lowest two stops that are set head on.
fn check_precedences(tables: Tables) -> Result<(), JudgeRefusal>
    ensures { MatchResult result (λ _. PrecedencesClear tables.entry.routes.stops.now tables.entry.legs.now tables.entry.routes.precedences.now) (λ e. PrecedencesRefused tables.entry.routes.stops.now tables.entry.legs.now tables.entry.routes.precedences.now e) }
{
    let mut marks = Marks::none();
    marks.mark(tables.routes);
    tables.routes.check_meetings(&marks)?;
    tables.check_head_on(&marks)
}

// Judges routes that have all reached their goals, with a table to work in. The two pages stay two parameters: each is
// the caller's own, and the contract names both before and after.
fn judge_routes<Y: Yard, R: FollowingRule>(
    yard: &Y,
    rule: &R,
    routes: Routes,
    legs: &mut [Leg],
    timetable: &mut [u32],
    ring: &mut [u16],
) -> Result<u16, JudgeRefusal>
    requires legs { length legs.old ≡ length routes.stops.now }
    requires timetable { length routes.stops.now ≤ length timetable.old }
    requires ring { length routes.stops.now ≤ length ring.old }
    ensures { Routed (Y.Yard.lanes yard.now) (R.FollowingRule.gaps rule.now) (max 36000 R.FollowingRule.LARGEST_GAP) routes.entry.stops.now routes.entry.precedences.now (record { timetable = timetable.old; ring = ring.old; timetable_after = timetable.new; ring_after = ring.new }) result }
{
    find_legs(yard, routes, legs)?;
    let tables = Tables { routes, legs };
    check_precedences(tables)?;
    settle(rule, tables, timetable, ring)
}

// Judges the sheet in the yard under the rule. A pass answers the number of stops, and the first so many numbers of the
// timetable are then the earliest arrivals; a ring answers its length, and the first so many numbers of the ring page
// are then its stops. Everything else on the two pages stands, and so does the sheet.
pub fn judge<Y: Yard, R: FollowingRule>(
    sheet: &Sheet,
    yard: &Y,
    rule: &R,
    timetable: &mut [u32],
    ring: &mut [u16],
) -> Result<u16, JudgeRefusal>
    ensures { JudgedFully
        (judging_of (Y.Yard.lanes yard.now) (R.FollowingRule.gaps rule.now) R.FollowingRule.LARGEST_GAP
        timetable.old ring.old timetable.new ring.new result)
        (sheet_book sheet.now) }
{
    let stops = sheet.stops();
    if timetable.len() < stops.len() || ring.len() < stops.len() {
        return Err(JudgeRefusal::PageTooShort);
    }
    check_goals(sheet.carriers())?;
    let routes = Routes {
        stops,
        precedences: sheet.precedences(),
    };
    let mut legs = [NO_LEG; MOST_STOPS];
    judge_routes(
        yard,
        rule,
        routes,
        &mut legs[0..stops.len()],
        timetable,
        ring,
    )
}
