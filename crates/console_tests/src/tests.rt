// Inputs and files in memory.
use console::files::lay_file;
use console::judge_lines::answer_lines;
use lane_yard::yards::LaneYard;
use std::io;
use std::io::Error;

#[test]
fn every_line_is_answered(rt: HostRuntime) -> io::Result<()> {
    let yard = LaneYard::new(rt.alloc())?;
    // A carrier, a line that ends before its digits do, and one without a newline.
    let mut input = b"0100000001\n0\n0100020003".as_slice();
    let mut out = Vec::new(rt.alloc());
    answer_lines(rt.alloc(), yard, &mut input, &mut out)?;
    assert_eq!(rt; out.as_slice(), b"000000\n1700000000\n000001\n".as_slice());
    Ok(())
}

#[test]
fn a_file_is_laid(rt: HostRuntime) -> io::Result<()> {
    let mut yard = LaneYard::new(rt.alloc())?;
    let file = b"06000000010002\n06000100000003".as_slice();
    assert!(rt; lay_file(rt.alloc(), Ok(file), &mut yard)?.is_ok());
    assert_eq!(rt; yard.lanes().len(), 2);
    assert!(rt; lay_file(rt.alloc(), Ok(b"06".as_slice()), &mut yard)?.is_err());
    assert_eq!(rt; yard.lanes().len(), 2);
    // A file that cannot be read counts as empty.
    let gone: io::Result<&[u8]> = Err(Error::other("gone"));
    assert!(rt; lay_file(rt.alloc(), gone, &mut yard)?.is_ok());
    assert_eq!(rt; yard.lanes().len(), 0);
    Ok(())
}
