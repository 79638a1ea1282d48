// The tests.
use grid_yard::plan::Plan;
use grid_yard::yards::GridYard;
use kinds::rules::AnyRule;
use kinds::yards::AnyYard;
use lane_yard::lane::Lane;
use lane_yard::yards::LaneYard;
use play::answers::{Answer, SheetRefusal};
use play::calls::Call;
use play::playing::play;
use sheet::refusal::EntryRefusal;
use std::alloc::Global;
use std::process::Abort;
use std::test::Fail;
use yard::rules::FixedGap;

// A lane yard with these lanes, each as from, to and travel time, as a yard of either kind. The tests of judging have
// the like; a crate for this one function would be no plainer.
fn yard_of(rt: &impl Abort, heap: Global, lanes: &[(u16, u16, u16)]) -> Result<AnyYard, Fail> {
    let mut yard = LaneYard::new(heap)?;
    let mut list = Vec::new(heap);
    for &(from, to, time) in lanes {
        list.push(Lane { from, to, time })?;
    }
    assert!(rt; yard.lay(list.as_slice()).is_ok());
    Ok(AnyYard::Lanes { yard })
}

// The lanes of the worked yard: both ways, 0-1 of 3 ticks, 1-2 of 2, 1-4 of 5, 2-3 of 4.
const WORKED_LANES: [(u16, u16, u16); 8] = [
    (0, 1, 3),
    (1, 0, 3),
    (1, 2, 2),
    (1, 4, 5),
    (2, 1, 2),
    (2, 3, 4),
    (3, 2, 4),
    (4, 1, 5),
];

// The worked yard, as a yard of either kind.
fn worked_yard(rt: &impl Abort, heap: Global) -> Result<AnyYard, Fail> {
    yard_of(rt, heap, &WORKED_LANES)
}

// The triangle: lanes 0 to 1, 1 to 2 and 2 to 0 of 1 tick.
fn triangle(rt: &impl Abort, heap: Global) -> Result<AnyYard, Fail> {
    yard_of(rt, heap, &[(0, 1, 1), (1, 2, 1), (2, 0, 1)])
}

// A grid of one row with three cells, 2 ticks along.
fn little_grid(rt: &impl Abort, heap: Global) -> Result<AnyYard, Fail> {
    let mut yard = GridYard::new(heap)?;
    let plan = Plan {
        rows: 1,
        columns: 3,
        along: 2,
        across: 1,
    };
    assert!(rt; yard.set_out(plan, &[0]).is_ok());
    Ok(AnyYard::Grid { yard })
}

// A fixed gap of so many ticks.
fn fixed(rt: &impl Abort, ticks: u16) -> AnyRule {
    let mut gap = FixedGap::new();
    assert!(rt; gap.set(ticks).is_ok());
    AnyRule::FixedGap { gap }
}

// A list of calls that is being written.
type Calls<Y> = Vec<Call<Y, AnyRule>>;

// One function for each kind of entry: each makes another call from another tuple.
fn add_carriers<Y: Drop>(calls: &mut Calls<Y>, carriers: &[(u16, u16)]) -> Result<(), Fail> {
    for &(start, goal) in carriers {
        calls.push(Call::EnterCarrier { start, goal })?;
    }
    Ok(())
}

fn add_stops<Y: Drop>(calls: &mut Calls<Y>, stops: &[(u8, u16)]) -> Result<(), Fail> {
    for &(carrier, place) in stops {
        calls.push(Call::EnterStop { carrier, place })?;
    }
    Ok(())
}

fn add_precedences<Y: Drop>(
    calls: &mut Calls<Y>,
    precedences: &[(u8, u8, u16)],
) -> Result<(), Fail> {
    for &(first, second, place) in precedences {
        calls.push(Call::EnterPrecedence {
            first,
            second,
            place,
        })?;
    }
    Ok(())
}

fn add_judging<Y: Drop>(calls: &mut Calls<Y>, yard: Y, rule: AnyRule) -> Result<(), Fail> {
    calls.push(Call::Judge { yard, rule })?;
    Ok(())
}

// The answer to an entry or a striking that is accepted with this number.
fn accepted(number: u16) -> Answer {
    Answer::Entered {
        outcome: Ok(number),
    }
}

// The answer to a judging of a sheet that passes with these arrivals.
fn passes(heap: Global, arrivals: &[u32]) -> Result<Answer, Fail> {
    let timetable = Vec::from_slice(heap, arrivals)?;
    Ok(Answer::Judged {
        verdict: Ok(timetable),
    })
}

// The answer to a judging of a sheet that is refused so.
fn refused(refusal: SheetRefusal) -> Answer {
    Answer::Judged {
        verdict: Err(refusal),
    }
}

#[test]
fn worked_sheet(rt: HostRuntime) -> Result<(), Fail> {
    let heap = rt.alloc();
    let yard = worked_yard(&rt, heap)?;
    let mut calls = Vec::new(heap);
    add_carriers(&mut calls, &[(0, 3), (2, 4)])?;
    add_stops(&mut calls, &[(0, 1), (0, 2), (0, 3), (1, 1), (1, 4)])?;
    add_precedences(&mut calls, &[(1, 0, 2), (1, 0, 1)])?;
    add_judging(&mut calls, &yard, AnyRule::FullLane)?;
    add_judging(&mut calls, &yard, AnyRule::LaneLessOne)?;
    add_judging(&mut calls, &yard, fixed(&rt, 0))?;
    add_judging(&mut calls, &yard, fixed(&rt, 1))?;
    add_precedences(&mut calls, &[(0, 1, 2)])?;
    let answers = play(heap, calls.as_slice())?;
    assert_eq!(rt; answers.len(), 14);
    for (answer, number) in answers.iter().zip([0, 1, 2, 3, 4, 5, 6, 1, 2]) {
        assert_eq!(rt; *answer, accepted(number));
    }
    assert_eq!(rt;
        answers.get(9),
        Some(&passes(heap, &[0, 0, 8, 10, 14, 2, 7])?)
    );
    assert_eq!(rt;
        answers.get(10),
        Some(&passes(heap, &[0, 0, 7, 9, 13, 2, 7])?)
    );
    assert_eq!(rt;
        answers.get(11),
        Some(&passes(heap, &[0, 0, 3, 5, 9, 2, 7])?)
    );
    assert_eq!(rt;
        answers.get(12),
        Some(&passes(heap, &[0, 0, 4, 6, 10, 2, 7])?)
    );
    let outcome = Err(EntryRefusal::FirstsGoalOrSecondsStart);
    assert_eq!(rt; answers.get(13), Some(&Answer::Entered { outcome }));
    Ok(())
}

#[test]
fn worked_sheet_turned(rt: HostRuntime) -> Result<(), Fail> {
    let heap = rt.alloc();
    let mut calls = Vec::new(heap);
    add_carriers(&mut calls, &[(0, 3), (2, 4)])?;
    add_judging(&mut calls, worked_yard(&rt, heap)?, AnyRule::FullLane)?;
    add_stops(&mut calls, &[(0, 1), (0, 2), (0, 3), (1, 1), (1, 4)])?;
    add_precedences(&mut calls, &[(1, 0, 2)])?;
    add_judging(&mut calls, worked_yard(&rt, heap)?, AnyRule::FullLane)?;
    add_precedences(&mut calls, &[(0, 1, 1)])?;
    add_judging(&mut calls, worked_yard(&rt, heap)?, AnyRule::LaneLessOne)?;
    add_judging(&mut calls, little_grid(&rt, heap)?, AnyRule::FullLane)?;
    calls.push(Call::StrikePrecedence {
        first: 0,
        second: 1,
        place: 1,
    })?;
    let answers = play(heap, calls.as_slice())?;
    assert_eq!(rt; answers.len(), 14);
    let not_at_goal = refused(SheetRefusal::NotAtGoal { carrier: 0 });
    assert_eq!(rt; answers.get(2), Some(&not_at_goal));
    let undecided = refused(SheetRefusal::Undecided { stop: 2, later: 5 });
    assert_eq!(rt; answers.get(9), Some(&undecided));
    let head_on = refused(SheetRefusal::HeadOn { stop: 1, other: 2 });
    assert_eq!(rt; answers.get(11), Some(&head_on));
    let no_lane = refused(SheetRefusal::NoLane { stop: 4 });
    assert_eq!(rt; answers.get(12), Some(&no_lane));
    assert_eq!(rt; answers.get(13), Some(&accepted(1)));
    Ok(())
}

#[test]
fn triangle_and_empty_sheet(rt: HostRuntime) -> Result<(), Fail> {
    let heap = rt.alloc();
    let mut calls = Vec::new(heap);
    add_judging(&mut calls, triangle(&rt, heap)?, AnyRule::FullLane)?;
    add_carriers(&mut calls, &[(0, 1), (1, 2), (2, 0)])?;
    add_stops(&mut calls, &[(0, 1), (1, 2), (2, 0)])?;
    add_precedences(&mut calls, &[(1, 0, 1), (2, 1, 2), (0, 2, 0)])?;
    add_judging(&mut calls, triangle(&rt, heap)?, AnyRule::FullLane)?;
    add_judging(&mut calls, triangle(&rt, heap)?, AnyRule::LaneLessOne)?;
    let answers = play(heap, calls.as_slice())?;
    assert_eq!(rt; answers.get(0), Some(&passes(heap, &[])?));
    let ring = SheetRefusal::Ring {
        stops: Vec::from_slice(heap, &[3, 5, 4])?,
    };
    assert_eq!(rt; answers.get(10), Some(&refused(ring)));
    assert_eq!(rt; answers.get(11), Some(&passes(heap, &[0, 0, 0, 1, 1, 1])?));
    Ok(())
}
