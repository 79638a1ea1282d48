// What is written into a page, held against what should stand there.
// Loops over numbers try cases by number. Bytes of a page are gone through by `enumerate`, as their marks are made of
// their positions.
use lines::entry::Entry;
use lines::page::write_bytes;
use lines::refusal::WriteRefusal;
use lines::write::write_entry;
use replies::reply::Reply;
use std::process::Abort;
use std::test::Fail;

// How many bytes the longest page has.
const ROOM: usize = 72;

// Something that is written into a page.
pub(crate) trait Text {
    fn write(&self, page: &mut [u8], at: usize) -> Result<usize, WriteRefusal>;
}

// The line of an entry.
impl Text for Entry {
    fn write(&self, page: &mut [u8], at: usize) -> Result<usize, WriteRefusal> {
        write_entry(self, page, at)
    }
}

// A reply.
impl Text for Reply<'_> {
    fn write(&self, page: &mut [u8], at: usize) -> Result<usize, WriteRefusal> {
        Reply::write(self, page, at)
    }
}

// Plain bytes.
impl Text for &[u8] {
    fn write(&self, page: &mut [u8], at: usize) -> Result<usize, WriteRefusal> {
        write_bytes(self, page, at)
    }
}

// The mark of a byte of a page: no digit, and another for each position.
fn mark(position: usize) -> u8 {
    128 + (position % 128) as u8
}

// A page of marks.
fn marked() -> [u8; ROOM] {
    let mut page = [0; ROOM];
    for (i, byte) in page.iter_mut().enumerate() {
        *byte = mark(i);
    }
    page
}

// That the page has these digits from the position on, and marks elsewhere.
fn check_page(rt: &impl Abort, page: &[u8], at: usize, digits: &[u8]) {
    for (i, byte) in page.iter().enumerate() {
        let digit = digits.get(i.wrapping_sub(at)).copied();
        assert_eq!(rt; *byte, digit.unwrap_or(mark(i)));
    }
}

// That in a page of this length the text is answered so, and the digits then stand from the position on.
pub(crate) fn check_written(
    rt: &impl Abort,
    text: &impl Text,
    length: usize,
    at: usize,
    answer: Result<usize, WriteRefusal>,
    digits: &[u8],
) -> Result<(), Fail> {
    let mut page = marked();
    let Some(part) = page.get_mut(0..length) else {
        assert!(rt; false);
        return Ok(());
    };
    assert_eq!(rt; text.write(part, at), answer);
    check_page(rt, &page, at, digits);
    Ok(())
}

// At each position of a page of this length, the last one aside.
fn check_length(
    rt: &impl Abort,
    text: &impl Text,
    length: usize,
    digits: &[u8],
    refusal: WriteRefusal,
) -> Result<(), Fail> {
    for at in 0..ROOM + 2 {
        if !digits.is_empty() && at <= length && length - at >= digits.len() {
            check_written(rt, text, length, at, Ok(digits.len()), digits)?;
        } else {
            check_written(rt, text, length, at, Err(refusal), b"")?;
        }
    }
    check_written(rt, text, length, usize::MAX - 1, Err(refusal), b"")?;
    check_written(rt, text, length, usize::MAX, Err(refusal), b"")
}

// At each position of pages of each length: that the digits are written where there are bytes enough for them, and that
// elsewhere, and everywhere if there are no digits, the text is refused so.
fn check_lengths(
    rt: &impl Abort,
    text: &impl Text,
    digits: &[u8],
    refusal: WriteRefusal,
) -> Result<(), Fail> {
    for length in 0..=ROOM {
        check_length(rt, text, length, digits, refusal)?;
    }
    Ok(())
}

// That the text has these digits.
pub(crate) fn check_digits(rt: &impl Abort, text: &impl Text, digits: &[u8]) -> Result<(), Fail> {
    assert!(rt; 0 < digits.len() && digits.len() < ROOM);
    check_lengths(rt, text, digits, WriteRefusal::PageTooShort)
}

// That the text is refused so on every page.
pub(crate) fn check_refused(
    rt: &impl Abort,
    text: &impl Text,
    refusal: WriteRefusal,
) -> Result<(), Fail> {
    check_lengths(rt, text, b"", refusal)
}
