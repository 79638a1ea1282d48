// The line buffer: the first 65 bytes of a line are kept.
// Loops over numbers make or try cases by number: there are no elements to go over.
use crate::reading::check_read;
use lines::buffer::LineBuffer;
use lines::entry::Input;
use lines::refusal::LineRefusal;
use std::process::Abort;

// Takes so many bytes in, the numbers from 1 on, which begin again after 250.
fn push_numbers(buffer: &mut LineBuffer, count: u16) {
    for i in 0..count {
        buffer.push((i % 250) as u8 + 1);
    }
}

// That so many bytes are kept, the numbers from 1 on.
fn check_kept(rt: &impl Abort, buffer: &LineBuffer, kept: usize) {
    assert_eq!(rt; buffer.line().len(), kept);
    assert_eq!(rt; buffer.is_started(), kept > 0);
    for (byte, number) in buffer.line().iter().zip(1..) {
        assert_eq!(rt; *byte, number);
    }
}

// One buffer for all, so that nothing of a longer line is seen in a shorter one after it. A line of 5,000 digits is
// then too long.
#[test]
fn a_buffer_keeps_65_bytes(rt: HostRuntime) {
    let mut buffer = LineBuffer::new();
    for (count, kept) in &[
        (0, 0),
        (5000, 65),
        (66, 65),
        (65, 65),
        (64, 64),
        (1, 1),
        (0, 0),
    ] {
        check_kept(&rt, &buffer, 0);
        push_numbers(&mut buffer, *count);
        check_kept(&rt, &buffer, *kept);
        buffer.clear();
    }
    check_kept(&rt, &buffer, 0);
    for _ in 0..5000 {
        buffer.push(b'0');
    }
    check_read(
        &rt,
        buffer.line(),
        Input::Sheet,
        Err(LineRefusal::BadLength),
    );
}
