//! Lines in any pieces, and what stops the reading of them.

use super::*;
use port_io::MemSource;
use std::test::Fail;

#[test]
fn lines_in_any_pieces(rt: HostRuntime) -> Result<(), Fail> {
    for chunk in [1, 3, 4096] {
        let text = Vec::from_slice(rt.alloc(), b"first\n\nthird\n")?;
        let mut source = MemSource::new(text, chunk, Vec::new(rt.alloc()));
        let mut lines = Lines::<13>::new();
        for (number, wanted) in [(1, "first"), (2, ""), (3, "third")] {
            assert_eq!(rt; lines.read_line(&mut source), Ok(()));
            assert_eq!(rt; lines.text(), wanted.as_bytes());
            assert_eq!(rt; lines.line(), number);
        }
        assert_eq!(rt; lines.read_end(&mut source), Ok(()));
    }
    Ok(())
}

#[test]
fn what_stops_the_reading_of_a_second_line(rt: HostRuntime) -> Result<(), Fail> {
    // A byte comes in each call; a listed 0 is the number of no call.
    for (text, fails, line, end) in [
        (
            "a\nb",
            0,
            LineError::Missing { line: 2 },
            Err(LineError::Surplus { line: 2 }),
        ),
        ("a\n", 0, LineError::Missing { line: 2 }, Ok(())),
        (
            "a\nbcdefg\n",
            0,
            LineError::TooLong,
            Err(LineError::Surplus { line: 2 }),
        ),
        ("a\nb\n", 3, LineError::Failed, Err(LineError::Failed)),
        (
            "a\nb\n",
            4,
            LineError::Failed,
            Err(LineError::Surplus { line: 2 }),
        ),
    ] {
        for is_end in [false, true] {
            let fails = Vec::from_slice(rt.alloc(), &[fails])?;
            let text = Vec::from_slice(rt.alloc(), text.as_bytes())?;
            let mut source = MemSource::new(text, 1, fails);
            let mut lines = Lines::<8>::new();
            assert_eq!(rt; lines.read_line(&mut source), Ok(()));
            if is_end {
                assert_eq!(rt; lines.read_end(&mut source), end);
            } else {
                assert_eq!(rt; lines.read_line(&mut source), Err(line));
            }
        }
    }
    Ok(())
}

#[test]
fn a_long_line_comes_in_pieces(rt: HostRuntime) -> Result<(), Fail> {
    let mut text = Vec::new(rt.alloc());
    for _ in 0..5000 {
        text.push(b'x')?;
    }
    text.extend_from_slice(b"\nend\n")?;
    let mut source = MemSource::new(text.clone()?, 1000, Vec::new(rt.alloc()));
    let mut lines = Lines::<10_000>::new();
    assert_eq!(rt; lines.read_piece(&mut source), Ok(false));
    assert_eq!(rt; lines.text().len(), 4096);
    assert_eq!(rt; lines.read_piece(&mut source), Ok(true));
    assert_eq!(rt; lines.text().len(), 904);
    let mut source = MemSource::new(text, 1000, Vec::new(rt.alloc()));
    let mut lines = Lines::<10_000>::new();
    assert_eq!(rt; lines.read_line(&mut source), Ok(()));
    assert!(rt; lines.text().is_empty());
    assert_eq!(rt; lines.read_line(&mut source), Ok(()));
    assert_eq!(rt; lines.text(), b"end".as_slice());
    Ok(())
}
