ghost use Rattle.std.specs.Prelude.{◌≤◌};

use super::*;
use std::alloc::{AllocError, Global};
use std::fs;
use std::test::Fail;

// A shelf with one text, which gives so many bytes at a call and fails at one call.
fn shelf_of(alloc: Global, text: &[u8], most: usize, failing: u64) -> Result<MemShelf, AllocError>
    requires { 1 ≤ most }
{
    let file = File {
        name: String::from_str(alloc, "text")?,
        bytes: text.to_vec(alloc)?,
    };
    MemShelf::new(alloc, vec![in alloc; file]?, vec![in alloc; failing]?, most)
}

// How many calls give a line, and the first answer that is none.
fn count_lines<S: Shelf>(lines: &mut Lines, shelf: &mut S) -> (usize, Got) {
    for count in 0..100_000 {
        match lines.next(shelf, "text") {
            Got::Line | Got::Last => {}
            got => return (count, got),
        }
    }
    (100_000, Got::Line)
}

#[test]
fn lines_come_one_after_another(rt: HostRuntime) -> Result<(), Fail> {
    let mut shelf = shelf_of(rt.alloc(), b"ab\r\n\ncd", 1, 0)?;
    let mut lines = Lines::new(rt.alloc(), 3)?;
    assert!(rt; lines.more() && lines.line().is_empty());
    assert_eq!(rt; lines.next(&mut shelf, "text"), Got::Line);
    assert_eq!(rt; lines.line(), b"ab\r".as_slice());
    assert_eq!(rt; lines.next(&mut shelf, "text"), Got::Line);
    assert_eq!(rt; lines.line(), b"".as_slice());
    assert_eq!(rt; lines.next(&mut shelf, "text"), Got::Last);
    assert_eq!(rt; lines.line(), b"cd".as_slice());
    assert!(rt; lines.more());
    assert_eq!(rt; lines.next(&mut shelf, "text"), Got::End);
    assert!(rt; !lines.more() && lines.line().is_empty());
    Ok(())
}

#[test]
fn a_line_may_be_as_long_as_the_limit(rt: HostRuntime) -> Result<(), Fail> {
    let texts = [
        (b"".as_slice(), 0, Got::End),
        (b"\n".as_slice(), 1, Got::End),
        (b"abc\nabc\n".as_slice(), 2, Got::End),
        (b"abc\nabc".as_slice(), 2, Got::End),
        (b"abc\nabcd\n".as_slice(), 1, Got::Long),
        (b"abc\nabcd".as_slice(), 1, Got::Long),
    ];
    for (text, count, end) in texts {
        for most in 1..10 {
            let mut shelf = shelf_of(rt.alloc(), text, most, 0)?;
            let mut lines = Lines::new(rt.alloc(), 3)?;
            assert_eq!(rt; count_lines(&mut lines, &mut shelf), (count, end));
        }
    }
    Ok(())
}

#[test]
fn a_failed_read_is_told_at_its_call(rt: HostRuntime) -> Result<(), Fail> {
    // The calls 1 to 6 give a byte each. Call 7 and, after the last line, call 8 give none.
    for (i, count) in [0, 0, 1, 1, 1, 2, 2, 3].into_iter().enumerate() {
        let mut shelf = shelf_of(rt.alloc(), b"a\nbc\nd", 1, i as u64 + 1)?;
        let mut lines = Lines::new(rt.alloc(), 3)?;
        assert_eq!(rt; count_lines(&mut lines, &mut shelf), (count, Got::Failed));
        assert!(rt; !lines.more() && lines.line().is_empty());
    }
    let mut shelf = shelf_of(rt.alloc(), b"a\nbc\nd", 1, 9)?;
    let mut lines = Lines::new(rt.alloc(), 3)?;
    assert_eq!(rt; count_lines(&mut lines, &mut shelf), (3, Got::End));
    Ok(())
}

#[test]
fn tens_of_thousands_of_lines_are_read(rt: HostRuntime) -> Result<(), Fail> {
    let mut text = Vec::new(rt.alloc());
    for count in 0..30_000 {
        text.resize(text.len() + count % 60, b'x')?;
        text.push(b'\n')?;
    }
    let mut shelf = shelf_of(rt.alloc(), &text, 1000, 0)?;
    let mut lines = Lines::new(rt.alloc(), 59)?;
    for count in 0..30_000 {
        assert_eq!(rt; lines.next(&mut shelf, "text"), Got::Line);
        assert_eq!(rt; lines.line().len(), count % 60);
    }
    assert_eq!(rt; lines.next(&mut shelf, "text"), Got::End);
    Ok(())
}

#[test]
fn lines_of_a_file_are_read(rt: HostRuntime) -> Result<(), Fail> {
    let name = "aip_io_lines";
    fs::write(&rt, name, b"tick 1\n# the end")?;
    let mut shelf = DirShelf::new(&rt);
    let mut lines = Lines::new(rt.alloc(), 20)?;
    assert_eq!(rt; lines.next(&mut shelf, name), Got::Line);
    assert_eq!(rt; lines.line(), b"tick 1".as_slice());
    assert_eq!(rt; lines.next(&mut shelf, name), Got::Last);
    assert_eq!(rt; lines.line(), b"# the end".as_slice());
    assert_eq!(rt; lines.next(&mut shelf, name), Got::End);
    fs::remove_file(&rt, name)?;
    Ok(())
}

#[test]
fn a_text_without_an_end_is_long(rt: HostRuntime) -> Result<(), Fail> {
    let mut shelf = DirShelf::new(&rt);
    let mut lines = Lines::new(rt.alloc(), 20_000)?;
    assert_eq!(rt; lines.next(&mut shelf, "/dev/zero"), Got::Long);
    let front = read_all(rt.alloc(), &mut shelf, "/dev/zero", 10_000)?;
    assert_eq!(rt; front.len(), 10_000);
    Ok(())
}
