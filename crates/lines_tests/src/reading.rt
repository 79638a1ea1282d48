// Lines that are read, and written back.
use crate::page::check_written;
use lines::entry::{Entry, Input, Rule};
use lines::read::read_entry;
use lines::refusal::LineRefusal;
use std::process::Abort;
use std::test::Fail;

// Lines of the kind 01, with start and goal.
const CARRIERS: [([u8; 10], u16, u16); 8] = [
    (*b"0100000000", 0, 0),
    (*b"010000FFFF", 0, 65535),
    (*b"01000100FF", 1, 255),
    (*b"0100FF0001", 255, 1),
    (*b"010FFF1000", 4095, 4096),
    (*b"0110000FFF", 4096, 4095),
    (*b"01FFFF0000", 65535, 0),
    (*b"01FFFFFFFF", 65535, 65535),
];

// Lines of the kind 02, with carrier and place.
const STOPS: [([u8; 8], u8, u16); 7] = [
    (*b"02000000", 0, 0),
    (*b"0200FFFF", 0, 65535),
    (*b"02011000", 1, 4096),
    (*b"023F00FF", 63, 255),
    (*b"02400001", 64, 1),
    (*b"02FF0000", 255, 0),
    (*b"02FF0FFF", 255, 4095),
];

// Lines of the kind 03, with first, second and place.
const PRECEDENCES: [([u8; 10], u8, u8, u16); 8] = [
    (*b"0300000000", 0, 0, 0),
    (*b"0300FF0001", 0, 255, 1),
    (*b"030100FFFF", 1, 0, 65535),
    (*b"03020300FF", 2, 3, 255),
    (*b"033F400FFF", 63, 64, 4095),
    (*b"03403F1000", 64, 63, 4096),
    (*b"03FF010000", 255, 1, 0),
    (*b"03FFFFFFFF", 255, 255, 65535),
];

// Lines of the kind 04, with first, second and place.
const STRIKES: [([u8; 10], u8, u8, u16); 8] = [
    (*b"0400000000", 0, 0, 0),
    (*b"0400FF0001", 0, 255, 1),
    (*b"040100FFFF", 1, 0, 65535),
    (*b"04020300FF", 2, 3, 255),
    (*b"043F400FFF", 63, 64, 4095),
    (*b"04403F1000", 64, 63, 4096),
    (*b"04FF010000", 255, 1, 0),
    (*b"04FFFFFFFF", 255, 255, 65535),
];

// Lines of the kind 05, with the rule.
const JUDGINGS: [([u8; 8], Rule); 9] = [
    (*b"05000000", Rule::FullLane),
    (*b"05010000", Rule::LaneLessOne),
    (*b"05020000", Rule::FixedGap { gap: 0 }),
    (*b"05020001", Rule::FixedGap { gap: 1 }),
    (*b"050200FF", Rule::FixedGap { gap: 255 }),
    (*b"05020FFF", Rule::FixedGap { gap: 4095 }),
    (*b"05021000", Rule::FixedGap { gap: 4096 }),
    (*b"05028C9F", Rule::FixedGap { gap: 35999 }),
    (*b"05028CA0", Rule::FixedGap { gap: 36000 }),
];

// Lines of the kind 06, with from, to and travel time.
const LANES: [([u8; 14], u16, u16, u16); 9] = [
    (*b"06000000000000", 0, 0, 0),
    (*b"060000000100FF", 0, 1, 255),
    (*b"06000000018CA1", 0, 1, 36001),
    (*b"06000100FF0FFF", 1, 255, 4095),
    (*b"0600FF0FFF1000", 255, 4095, 4096),
    (*b"060FFF1000FFFF", 4095, 4096, 65535),
    (*b"061000FFFF0000", 4096, 65535, 0),
    (*b"06FFFF00000001", 65535, 0, 1),
    (*b"06FFFFFFFFFFFF", 65535, 65535, 65535),
];

// That the line reads so.
pub(crate) fn check_read(
    rt: &impl Abort,
    line: &[u8],
    input: Input,
    wanted: Result<Entry, LineRefusal>,
) {
    assert_eq!(rt; read_entry(line, input), wanted);
}

// That the line reads as the entry in the input, is of an unknown kind in the other, and is written from the entry.
fn check_line(
    rt: &impl Abort,
    line: &[u8],
    entry: Entry,
    input: Input,
    other: Input,
) -> Result<(), Fail> {
    check_read(rt, line, input, Ok(entry));
    check_read(rt, line, other, Err(LineRefusal::UnknownKind));
    check_written(rt, &entry, line.len(), 0, Ok(line.len()), line)
}

// The same of a sheet line.
fn check_sheet_line(rt: &impl Abort, line: &[u8], entry: Entry) -> Result<(), Fail> {
    check_line(rt, line, entry, Input::Sheet, Input::Yard)
}

fn check_carriers_and_stops(rt: &impl Abort) -> Result<(), Fail> {
    for (line, start, goal) in &CARRIERS {
        let (start, goal) = (*start, *goal);
        check_sheet_line(rt, line, Entry::Carrier { start, goal })?;
    }
    for (line, carrier, place) in &STOPS {
        let (carrier, place) = (*carrier, *place);
        check_sheet_line(rt, line, Entry::Stop { carrier, place })?;
    }
    Ok(())
}

fn check_precedences_and_strikings(rt: &impl Abort) -> Result<(), Fail> {
    for (line, first, second, place) in &PRECEDENCES {
        let (first, second, place) = (*first, *second, *place);
        check_sheet_line(
            rt,
            line,
            Entry::Precedence {
                first,
                second,
                place,
            },
        )?;
    }
    for (line, first, second, place) in &STRIKES {
        let (first, second, place) = (*first, *second, *place);
        check_sheet_line(
            rt,
            line,
            Entry::Strike {
                first,
                second,
                place,
            },
        )?;
    }
    Ok(())
}

fn check_judgings_and_lanes(rt: &impl Abort) -> Result<(), Fail> {
    for (line, rule) in &JUDGINGS {
        check_sheet_line(rt, line, Entry::Judge { rule: *rule })?;
    }
    for (line, from, to, time) in &LANES {
        let (from, to, time) = (*from, *to, *time);
        check_line(
            rt,
            line,
            Entry::Lane { from, to, time },
            Input::Yard,
            Input::Sheet,
        )?;
    }
    Ok(())
}

#[test]
fn each_kind_at_its_limits(rt: HostRuntime) -> Result<(), Fail> {
    check_carriers_and_stops(&rt)?;
    check_precedences_and_strikings(&rt)?;
    check_judgings_and_lanes(&rt)
}
