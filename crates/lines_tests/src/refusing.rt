// Lines that are refused: by their bytes, by their length, by their first byte, and in the order of the checks.
// Loops over numbers make or try cases by number: there are no elements to go over.
use crate::page::check_written;
use crate::reading::check_read;
use lines::entry::Input;
use lines::read::read_entry;
use lines::refusal::LineRefusal;
use replies::reply::Reply;
use std::process::Abort;
use std::test::Fail;

const DIGITS: [u8; 16] = *b"0123456789ABCDEF";

// A line of each kind, the input that has it, and the other input.
const GOOD: [(&[u8], Input, Input); 6] = [
    (b"0100010FFF", Input::Sheet, Input::Yard),
    (b"023F0102", Input::Sheet, Input::Yard),
    (b"03003F0ABC", Input::Sheet, Input::Yard),
    (b"043F000DEF", Input::Sheet, Input::Yard),
    (b"05028CA0", Input::Sheet, Input::Yard),
    (b"06000100028CA0", Input::Yard, Input::Sheet),
];

// Lines of a sheet with a bad digit, and its column.
const BAD_DIGITS: [(&[u8], [u8; 10]); 7] = [
    (b"01G", *b"1600020000"),
    (b" 0100000001", *b"1600000000"),
    (b"0100000a01", *b"1600070000"),
    (b"0100000001\r", *b"16000A0000"),
    (b"07\n", *b"1600020000"),
    (b"0503000G", *b"1600070000"),
    (&[b'G'; 64], *b"1600000000"),
];

// Lines of a sheet that do not have the length of a line, or of their kind.
const BAD_LENGTHS: [&[u8]; 12] = [
    b"",
    b"0",
    &[b'A'; 65],
    &[b'G'; 65],
    &[b'A'; 63],
    b"070",
    b"01",
    b"010000000100",
    b"0503",
    b"050300",
    b"0503000",
    b"0503000000",
];

// Lines of no kind that a sheet has.
const UNKNOWN_KINDS: [&[u8]; 5] = [&[b'A'; 64], b"00", b"07", b"06", b"06000000010001"];

// Judgings under no rule.
const BAD_RULES: [[u8; 8]; 16] = [
    *b"05030000",
    *b"05030001",
    *b"05040000",
    *b"05800000",
    *b"05FF0000",
    *b"05FFFFFF",
    *b"05000001",
    *b"05000100",
    *b"05008CA0",
    *b"0500FFFF",
    *b"05010001",
    *b"05018CA0",
    *b"0501FFFF",
    *b"05028CA1",
    *b"05029000",
    *b"0502FFFF",
];

// Lines of a yard that are refused, with their replies.
const REFUSED_IN_YARD: [(&[u8], [u8; 10]); 9] = [
    (b"", *b"1700000000"),
    (b"07", *b"1800000000"),
    (b"0100000001", *b"1800000000"),
    (b"05030000", *b"1800000000"),
    (b"06", *b"1700000000"),
    (b"0600", *b"1700000000"),
    (b"060000000100", *b"1700000000"),
    (b"06000000010001 ", *b"16000E0000"),
    (b"0600000001000100", *b"1700000000"),
];

// That the line is refused with this reply.
fn check_refused(rt: &impl Abort, line: &[u8], input: Input, reply: &[u8]) -> Result<(), Fail> {
    let Err(refusal) = read_entry(line, input) else {
        assert!(rt; false, "the line is read");
        return Ok(());
    };
    let told = Reply::Refused {
        number: refusal.number(),
        first: refusal.told(),
        second: 0,
    };
    check_written(rt, &told, 10, 0, Ok(10), reply)
}

fn check_refused_in_yard(rt: &impl Abort) -> Result<(), Fail> {
    for (line, reply) in &REFUSED_IN_YARD {
        check_refused(rt, line, Input::Yard, reply)?;
    }
    Ok(())
}

#[test]
fn refused_lines_have_their_replies(rt: HostRuntime) -> Result<(), Fail> {
    for (line, reply) in &BAD_DIGITS {
        check_refused(&rt, line, Input::Sheet, reply)?;
    }
    for line in &BAD_LENGTHS {
        check_refused(&rt, line, Input::Sheet, b"1700000000")?;
    }
    for line in &UNKNOWN_KINDS {
        check_refused(&rt, line, Input::Sheet, b"1800000000")?;
    }
    for line in &BAD_RULES {
        check_refused(&rt, line, Input::Sheet, b"1900000000")?;
    }
    check_refused_in_yard(&rt)
}

// The line with zeros after it.
fn with_zeros(line: &[u8]) -> [u8; 70] {
    let mut long = [b'0'; 70];
    for (zero, byte) in long.iter_mut().zip(line) {
        *zero = *byte;
    }
    long
}

// The column of the bad digit that the line is refused for, if it is.
fn bad_column(line: &[u8], input: Input) -> Option<u16> {
    match read_entry(line, input) {
        Err(LineRefusal::BadDigit { column }) => Some(column),
        _ => None,
    }
}

// That the line with this byte at the column has a bad digit there, in both inputs, if the byte is no digit.
fn check_byte(rt: &impl Abort, line: &[u8], column: u16, byte: u8) -> Result<(), Fail> {
    let mut long = with_zeros(line);
    let Some(place) = long.get_mut(usize::from(column)) else {
        assert!(rt; false);
        return Ok(());
    };
    *place = byte;
    let Some(damaged) = long.get(0..line.len()) else {
        assert!(rt; false);
        return Ok(());
    };
    let wanted = if DIGITS.contains(&byte) {
        None
    } else {
        Some(column)
    };
    assert_eq!(rt; bad_column(damaged, Input::Sheet), wanted);
    assert_eq!(rt; bad_column(damaged, Input::Yard), wanted);
    Ok(())
}

// The same of each byte at each column.
fn check_bytes(rt: &impl Abort, line: &[u8]) -> Result<(), Fail> {
    for column in (0..64).take(line.len()) {
        for byte in 0..=255 {
            check_byte(rt, line, column, byte)?;
        }
    }
    Ok(())
}

// A line of 64 bytes, which are bad digits from the column on.
fn bad_from(column: u16) -> [u8; 64] {
    let mut line = [b'0'; 64];
    for byte in line.iter_mut().skip(usize::from(column)) {
        *byte = b'G';
    }
    line
}

#[test]
fn bad_digits_are_told_by_the_first_column(rt: HostRuntime) -> Result<(), Fail> {
    for (line, _, _) in &GOOD {
        check_bytes(&rt, line)?;
    }
    for column in 0..64 {
        assert_eq!(rt; bad_column(&bad_from(column), Input::Sheet), Some(column));
    }
    Ok(())
}

// The line cut to each length, or with zeros after it.
fn check_lengths(rt: &impl Abort, line: &[u8], input: Input, other: Input) {
    let long = with_zeros(line);
    for length in 0..=70 {
        let part = &long[0..length];
        if length != line.len() {
            check_read(rt, part, input, Err(LineRefusal::BadLength));
        }
        let refusal = if length == 0 || length > 64 || length % 2 == 1 {
            LineRefusal::BadLength
        } else {
            LineRefusal::UnknownKind
        };
        check_read(rt, part, other, Err(refusal));
    }
}

// What the first byte alone is refused for, in a sheet and in a yard. A number, since every byte is tried.
fn check_first_byte(rt: &impl Abort, kind: u8) {
    let line = [DIGITS[kind as usize / 16], DIGITS[kind as usize % 16]];
    let (sheet, yard) = match kind {
        1..=5 => (LineRefusal::BadLength, LineRefusal::UnknownKind),
        6 => (LineRefusal::UnknownKind, LineRefusal::BadLength),
        _ => (LineRefusal::UnknownKind, LineRefusal::UnknownKind),
    };
    check_read(rt, &line, Input::Sheet, Err(sheet));
    check_read(rt, &line, Input::Yard, Err(yard));
}

#[test]
fn lengths_and_first_bytes(rt: HostRuntime) {
    for (line, input, other) in &GOOD {
        check_lengths(&rt, line, *input, *other);
    }
    for kind in 0..=255 {
        check_first_byte(&rt, kind);
    }
}
