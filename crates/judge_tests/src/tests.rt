// The tests.
// Loops over numbers make or try cases by number: there are no elements to go over.
use grid_yard::plan::Plan;
use grid_yard::yards::GridYard;
use judge::judging::judge;
use judge::refusal::JudgeRefusal;
use lane_yard::lane::Lane;
use lane_yard::yards::LaneYard;
use sheet::refusal::EntryRefusal;
use sheet::sheets::Sheet;
use std::alloc::Global;
use std::process::Abort;
use std::test::Fail;
use yard::rules::{FixedGap, FullLane, LaneLessOne};
use yard::{FollowingRule, Yard};

// A lane yard with these lanes, each as from, to and travel time. The tests of played lists have the like for a yard of
// either kind; a crate for this one function would be no plainer.
fn yard_of(rt: &impl Abort, heap: Global, lanes: &[(u16, u16, u16)]) -> Result<LaneYard, Fail> {
    let mut yard = LaneYard::new(heap)?;
    let mut list = Vec::new(heap);
    for lane in lanes {
        let (from, to, time) = *lane;
        list.push(Lane { from, to, time })?;
    }
    assert!(rt; yard.lay(list.as_slice()).is_ok());
    Ok(yard)
}

// The lanes of the worked yard: both ways, 0-1 of 3 ticks, 1-2 of 2, 1-4 of 5, 2-3 of 4.
const WORKED_LANES: [(u16, u16, u16); 8] = [
    (0, 1, 3),
    (1, 0, 3),
    (1, 2, 2),
    (1, 4, 5),
    (2, 1, 2),
    (2, 3, 4),
    (3, 2, 4),
    (4, 1, 5),
];

// The worked yard, as a lane yard.
fn worked_yard(rt: &impl Abort, heap: Global) -> Result<LaneYard, Fail> {
    yard_of(rt, heap, &WORKED_LANES)
}

// The worked sheet: carrier 0 from 0 by 1 and 2 to 3, carrier 1 from 2 by 1 to 4, which goes first at 2 and at 1.
fn worked_sheet(rt: &impl Abort, heap: Global) -> Result<Sheet, Fail> {
    let mut sheet = Sheet::open(heap)?;
    assert_eq!(rt; sheet.enter_carrier(0, 3), Ok(0));
    assert_eq!(rt; sheet.enter_carrier(2, 4), Ok(1));
    const STOPS: [(u8, u16); 5] = [(0, 1), (0, 2), (0, 3), (1, 1), (1, 4)];
    for ((carrier, place), number) in STOPS.into_iter().zip(2..) {
        assert_eq!(rt; sheet.enter_stop(carrier, place), Ok(number));
    }
    assert_eq!(rt; sheet.enter_precedence(1, 0, 2), Ok(1));
    assert_eq!(rt; sheet.enter_precedence(1, 0, 1), Ok(2));
    Ok(sheet)
}

// That the page begins with these numbers, and every other number on it is the mark.
fn check_page<T: PartialEq>(rt: &impl Abort, page: &[T], front: &[T], mark: &T) {
    assert!(rt; front.len() <= page.len());
    let (written, rest) = page.split_at(front.len());
    assert!(rt; written == front);
    assert!(rt; rest.iter().all(|number| number == mark));
}

// That the sheet passes with these arrivals, on pages with so many numbers more than stops, whose rest keeps its marks.
fn check_pass<Y: Yard, R: FollowingRule>(
    rt: &impl Abort,
    sheet: &Sheet,
    yard: &Y,
    rule: &R,
    arrivals: &[u32],
    heap: Global,
    more: usize,
) -> Result<(), Fail> {
    assert!(rt; arrivals.len() <= 64 && more <= 64);
    let mut timetable = vec![in heap; 77u32; arrivals.len() + more]?;
    let mut ring = vec![in heap; 99u16; arrivals.len() + more]?;
    assert_eq!(rt;
        judge(sheet, yard, rule, &mut timetable, &mut ring),
        Ok(arrivals.len() as u16)
    );
    check_page(rt, &timetable, arrivals, &77);
    check_page(rt, &ring, &[], &99);
    Ok(())
}

// That the sheet is refused so, and both pages keep their marks.
fn check_refused<Y: Yard, R: FollowingRule>(
    rt: &impl Abort,
    sheet: &Sheet,
    yard: &Y,
    rule: &R,
    refusal: JudgeRefusal,
) {
    let mut timetable = [77; 1024];
    let mut ring = [99; 1024];
    assert_eq!(rt;
        judge(sheet, yard, rule, &mut timetable, &mut ring),
        Err(refusal)
    );
    check_page(rt, &timetable, &[], &77);
    check_page(rt, &ring, &[], &99);
}

// That the sheet has this ring, on pages whose rest keeps its marks.
fn check_ring<Y: Yard, R: FollowingRule>(
    rt: &impl Abort,
    sheet: &Sheet,
    yard: &Y,
    rule: &R,
    stops: &[u16],
) {
    assert!(rt; stops.len() <= 64);
    let mut timetable = [77; 1024];
    let mut ring = [99; 1024];
    assert_eq!(rt;
        judge(sheet, yard, rule, &mut timetable, &mut ring),
        Err(JudgeRefusal::Ring {
            length: stops.len() as u16,
        })
    );
    check_page(rt, &timetable, &[], &77);
    check_page(rt, &ring, stops, &99);
}

#[test]
fn worked_sheet_under_all_rules(rt: HostRuntime) -> Result<(), Fail> {
    let heap = rt.alloc();
    let yard = worked_yard(&rt, heap)?;
    let sheet = worked_sheet(&rt, heap)?;
    let mut gap = FixedGap::new();
    check_pass(
        &rt,
        &sheet,
        &yard,
        &FullLane,
        &[0, 0, 8, 10, 14, 2, 7],
        heap,
        0,
    )?;
    check_pass(
        &rt,
        &sheet,
        &yard,
        &LaneLessOne,
        &[0, 0, 7, 9, 13, 2, 7],
        heap,
        3,
    )?;
    check_pass(&rt, &sheet, &yard, &gap, &[0, 0, 3, 5, 9, 2, 7], heap, 3)?;
    assert!(rt; gap.set(1).is_ok());
    check_pass(&rt, &sheet, &yard, &gap, &[0, 0, 4, 6, 10, 2, 7], heap, 1)
}

#[test]
fn pages_one_short(rt: HostRuntime) -> Result<(), Fail> {
    let heap = rt.alloc();
    let yard = worked_yard(&rt, heap)?;
    let sheet = worked_sheet(&rt, heap)?;
    let mut short = [77; 6];
    let mut ring = [99; 7];
    assert_eq!(rt;
        judge(&sheet, &yard, &FullLane, &mut short, &mut ring),
        Err(JudgeRefusal::PageTooShort)
    );
    assert!(rt; short == [77; 6] && ring == [99; 7]);
    let mut timetable = [77; 7];
    let mut short_ring = [99; 6];
    assert_eq!(rt;
        judge(&sheet, &yard, &FullLane, &mut timetable, &mut short_ring),
        Err(JudgeRefusal::PageTooShort)
    );
    assert!(rt; timetable == [77; 7] && short_ring == [99; 6]);
    Ok(())
}

#[test]
fn undecided_and_head_on(rt: HostRuntime) -> Result<(), Fail> {
    let heap = rt.alloc();
    let yard = worked_yard(&rt, heap)?;
    let mut sheet = worked_sheet(&rt, heap)?;
    assert_eq!(rt; sheet.strike_precedence(1, 0, 1), Ok(1));
    let undecided = JudgeRefusal::Undecided { stop: 2, later: 5 };
    check_refused(&rt, &sheet, &yard, &FullLane, undecided);
    assert_eq!(rt; sheet.enter_precedence(0, 1, 1), Ok(2));
    let head_on = JudgeRefusal::HeadOn { stop: 1, other: 2 };
    check_refused(&rt, &sheet, &yard, &FullLane, head_on);
    check_refused(&rt, &sheet, &yard, &LaneLessOne, head_on);
    Ok(())
}

#[test]
fn not_home_and_no_lane(rt: HostRuntime) -> Result<(), Fail> {
    let heap = rt.alloc();
    let yard = worked_yard(&rt, heap)?;
    let mut sheet = Sheet::open(heap)?;
    check_pass(&rt, &sheet, &yard, &FullLane, &[], heap, 2)?;
    assert_eq!(rt; sheet.enter_carrier(7, 7), Ok(0));
    assert_eq!(rt; sheet.enter_stop(0, 1), Err(EntryRefusal::RouteAtGoal));
    check_pass(&rt, &sheet, &yard, &FullLane, &[0], heap, 0)?;
    assert_eq!(rt; sheet.enter_carrier(0, 2), Ok(1));
    check_refused(
        &rt,
        &sheet,
        &yard,
        &FullLane,
        JudgeRefusal::NotAtGoal { carrier: 1 },
    );
    assert_eq!(rt; sheet.enter_stop(1, 2), Ok(2));
    check_refused(
        &rt,
        &sheet,
        &yard,
        &FullLane,
        JudgeRefusal::NoLane { stop: 2 },
    );
    Ok(())
}

// Carriers round a circle of places, each one place on, each following the next: a ring of all of them.
#[test]
fn ring_of_sixty_four(rt: HostRuntime) -> Result<(), Fail> {
    let heap = rt.alloc();
    let mut lanes = Vec::new(heap);
    let mut sheet = Sheet::open(heap)?;
    for i in 0..64u16 {
        lanes.push((i, (i + 1) % 64, 1))?;
        assert_eq!(rt; sheet.enter_carrier(i, (i + 1) % 64), Ok(i));
    }
    let yard = yard_of(&rt, heap, lanes.as_slice())?;
    for i in 0..64u8 {
        assert_eq!(rt;
            sheet.enter_stop(i, (u16::from(i) + 1) % 64),
            Ok(u16::from(i) + 64)
        );
    }
    for i in 0..64u8 {
        let next = (i + 1) % 64;
        assert_eq!(rt;
            sheet.enter_precedence(next, i, u16::from(next)),
            Ok(u16::from(i) + 1)
        );
    }
    let mut ring = Vec::new(heap);
    ring.push(64)?;
    for stop in (65..128).rev() {
        ring.push(stop)?;
    }
    check_ring(&rt, &sheet, &yard, &FullLane, &ring);
    let mut arrivals = [0; 128];
    arrivals[64..].fill(1);
    let mut timetable = [77; 130];
    let mut page = [99; 130];
    assert_eq!(rt;
        judge(&sheet, &yard, &LaneLessOne, &mut timetable, &mut page),
        Ok(128)
    );
    check_page(&rt, &timetable, &arrivals, &77);
    Ok(())
}

#[test]
fn grid(rt: HostRuntime) -> Result<(), Fail> {
    let heap = rt.alloc();
    let mut yard = GridYard::new(heap)?;
    let plan = Plan {
        rows: 2,
        columns: 2,
        along: 2,
        across: 3,
    };
    assert!(rt; yard.set_out(plan, &[0]).is_ok());
    let mut sheet = Sheet::open(heap)?;
    assert_eq!(rt; sheet.enter_carrier(0, 3), Ok(0));
    assert_eq!(rt; sheet.enter_stop(0, 1), Ok(1));
    assert_eq!(rt; sheet.enter_stop(0, 3), Ok(2));
    check_pass(&rt, &sheet, &yard, &FullLane, &[0, 2, 5], heap, 1)?;
    assert!(rt; yard.set_out(plan, &[2]).is_ok());
    check_refused(
        &rt,
        &sheet,
        &yard,
        &FullLane,
        JudgeRefusal::NoLane { stop: 1 },
    );
    Ok(())
}
