// Lines and replies that are written, each at every position of pages of every length.
use crate::page::{Text, check_digits, check_refused};
use lines::entry::{Entry, Rule};
use lines::refusal::WriteRefusal;
use replies::reply::Reply;
use std::process::Abort;
use std::test::Fail;

// Lines of each kind.
const LINES: [(Entry, &[u8]); 8] = [
    (
        Entry::Carrier {
            start: 1,
            goal: 4095,
        },
        b"0100010FFF",
    ),
    (
        Entry::Stop {
            carrier: 63,
            place: 4096,
        },
        b"023F1000",
    ),
    (
        Entry::Precedence {
            first: 255,
            second: 1,
            place: 65535,
        },
        b"03FF01FFFF",
    ),
    (
        Entry::Strike {
            first: 0,
            second: 64,
            place: 258,
        },
        b"0400400102",
    ),
    (
        Entry::Judge {
            rule: Rule::FullLane,
        },
        b"05000000",
    ),
    (
        Entry::Judge {
            rule: Rule::LaneLessOne,
        },
        b"05010000",
    ),
    (
        Entry::Judge {
            rule: Rule::FixedGap { gap: 36000 },
        },
        b"05028CA0",
    ),
    (
        Entry::Lane {
            from: 4095,
            to: 0,
            time: 36000,
        },
        b"060FFF00008CA0",
    ),
];

// Accepted calls.
const ACCEPTED: [(Reply, &[u8]); 3] = [
    (Reply::Accepted { number: 0 }, b"000000"),
    (Reply::Accepted { number: 2048 }, b"000800"),
    (Reply::Accepted { number: 65535 }, b"00FFFF"),
];

// Judgings that pass.
const PASSED: [(Reply, &[u8]); 5] = [
    (Reply::Passed { arrivals: &[] }, b"000000"),
    (
        Reply::Passed {
            arrivals: &[4294967295],
        },
        b"000001FFFFFFFF",
    ),
    (
        Reply::Passed {
            arrivals: &[0, 36864000, 4294967295],
        },
        b"0000030000000002328000FFFFFFFF",
    ),
    (
        Reply::Passed {
            arrivals: &[0, 0, 0, 1, 1, 1],
        },
        b"000006000000000000000000000000000000010000000100000001",
    ),
    (
        Reply::Passed {
            arrivals: &[0, 0, 8, 10, 14, 2, 7],
        },
        b"0000070000000000000000000000080000000A0000000E0000000200000007",
    ),
];

// Judgings that find a ring.
const RINGS: [(Reply, &[u8]); 2] = [
    (Reply::Ring { stops: &[3, 5, 4] }, b"110003000300050004"),
    (
        Reply::Ring {
            stops: &[255, 1023],
        },
        b"11000200FF03FF",
    ),
];

// Other refusals.
const REFUSED: [(Reply, &[u8]); 5] = [
    (
        Reply::Refused {
            number: 9,
            first: 0,
            second: 0,
        },
        b"0900000000",
    ),
    (
        Reply::Refused {
            number: 15,
            first: 2,
            second: 5,
        },
        b"0F00020005",
    ),
    (
        Reply::Refused {
            number: 16,
            first: 1,
            second: 2,
        },
        b"1000010002",
    ),
    (
        Reply::Refused {
            number: 19,
            first: 8191,
            second: 0,
        },
        b"131FFF0000",
    ),
    (
        Reply::Refused {
            number: 22,
            first: 10,
            second: 0,
        },
        b"16000A0000",
    ),
];

// Plain bytes.
const BYTES: [(&[u8], &[u8]); 2] = [
    (&[0x5A], b"5A"),
    (&[0x00, 0x0F, 0xF0, 0x9A, 0xFF], b"000FF09AFF"),
];

// That each text has its digits.
fn check_all<T: Text>(rt: &impl Abort, table: &[(T, &[u8])]) -> Result<(), Fail> {
    for (text, digits) in table {
        check_digits(rt, text, digits)?;
    }
    Ok(())
}

#[test]
fn lines_are_written_at_every_position(rt: HostRuntime) -> Result<(), Fail> {
    check_all(&rt, &LINES)?;
    for gap in [36001, 36864, 65535] {
        let rule = Rule::FixedGap { gap };
        check_refused(&rt, &Entry::Judge { rule }, WriteRefusal::GapTooLong)?;
    }
    assert_eq!(rt; WriteRefusal::GapTooLong.number(), 25);
    Ok(())
}

#[test]
fn replies_are_written_at_every_position(rt: HostRuntime) -> Result<(), Fail> {
    check_all(&rt, &ACCEPTED)?;
    check_all(&rt, &PASSED)?;
    check_all(&rt, &RINGS)?;
    check_all(&rt, &REFUSED)?;
    check_all(&rt, &BYTES)?;
    assert_eq!(rt; WriteRefusal::PageTooShort.number(), 12);
    Ok(())
}

// That the text fills the page with these six digits and then these eight over and over, and does not fit one byte
// further on.
fn check_long(rt: &impl Abort, text: &impl Text, page: &mut [u8], head: &[u8; 6], each: &[u8; 8]) {
    let size = page.len();
    assert_eq!(rt; text.write(page, 1), Err(WriteRefusal::PageTooShort));
    assert_eq!(rt; text.write(page, 0), Ok(size));
    for (byte, digit) in page.iter().zip(head.iter().chain(each.iter().cycle())) {
        assert_eq!(rt; *byte, *digit);
    }
}

// The longest reply to a sheet has 1,024 arrivals. A list has at most 65,535 numbers.
#[test]
fn long_lists(rt: HostRuntime) -> Result<(), Fail> {
    let arrivals = &[258; 1024];
    let passed = Reply::Passed { arrivals };
    check_long(&rt, &passed, &mut [b'.'; 8198], b"000400", b"00000102");
    let stops = &[772; 65535];
    let ring = Reply::Ring { stops };
    check_long(&rt, &ring, &mut [b'.'; 262146], b"11FFFF", b"03040304");
    let stops = &[772; 65536];
    let too_many = Reply::Ring { stops };
    check_refused(&rt, &too_many, WriteRefusal::ListTooLong)?;
    assert_eq!(rt; WriteRefusal::ListTooLong.number(), 12);
    Ok(())
}
