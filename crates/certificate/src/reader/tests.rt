//! Reading answers, whole ones and broken ones.

ghost use Rattle.std.specs.Prelude.{◌≡◌, Some, [], IfOk, IfSome};
ghost use Rattle.certificate.specs.Blames.{Blames};

use super::{AnswerError, AnswerReader, Item};
use port_io::{MemSource, Source};
use siting_definitions::{Mark, Word};
use std::alloc::{AllocError, Global};
use std::test::Fail;
use text_lines::next_line;

const TEXT: &[u8] = b"siting answer 1\n\
    siting 1\nkind sum\npoint 2 2 1\npermit 0 0 4 0 4 4 0 4\nend\n\
    gap 185\nbudget 1\npool 100000\nsite 0 0\ncost 185363 185364\nbound 0\nanswer budget\nopen 0\n\
    leases 1\nroot 0 0 19\nS 185364\nO 0\nO 131072\nO 131072\nB 185363\nend\n";

/// Reads an answer to its end, and counts its node lines.
fn count_nodes<S: Source>(alloc: Global, source: &mut S) -> Result<u64, AnswerError>
    // All bytes are read, and a fault of reading is one of the source.
    ensures end { IfOk result (λ _. IfSome (S.left source.old)
        (λ _. S.left source.new ≡ Some [])) }
    ensures blames { Blames (S.faults source.old) (S.faults source.new) result }
{
    let mut reader = AnswerReader::new(source);
    reader.read_head(alloc)?;
    for count in 0..u64::MAX {
        match reader.next()? {
            Item::Node(_) => {}
            Item::End => {
                reader.finish()?;
                return Ok(count);
            }
        }
    }
    Err(AnswerError::TooLong)
}

/// The first line of a text that differs from a form, or what else stopped the reading; 0 and the
/// number of nodes where nothing did.
fn outcome(alloc: Global, text: &[u8], chunk: usize, fails: u64) -> Result<(u8, u64), AllocError> {
    let fails = Vec::from_slice(alloc, &[fails])?;
    let mut source = MemSource::new(Vec::from_slice(alloc, text)?, chunk.max(1), fails);
    Ok(match count_nodes(alloc, &mut source) {
        Ok(nodes) => (0, nodes),
        Err(AnswerError::Form { line }) => (1, line),
        Err(AnswerError::Instance) => (2, 2),
        Err(AnswerError::TooLong) => (3, 0),
        Err(AnswerError::ReadFault) => (4, 0),
        Err(AnswerError::NoMemory) => return Err(AllocError),
    })
}

/// The text with this line in the place of the one of this number.
fn with_line(alloc: Global, number: usize, line: &[u8]) -> Result<Vec<u8>, AllocError> {
    let mut all = Vec::new(alloc);
    let mut rest = TEXT;
    for i in 1..=TEXT.len() {
        if rest.is_empty() {
            break;
        }
        let (old, after) = next_line(rest);
        if i == number {
            all.extend_from_slice(line)?;
        } else {
            all.extend_from_slice(old)?;
            all.extend_from_slice(b"\n")?;
        }
        rest = after;
    }
    Ok(all)
}

#[test]
fn a_whole_answer_in_any_pieces(rt: HostRuntime) -> Result<(), Fail> {
    for chunk in [1, 7, 4096] {
        let text = Vec::from_slice(rt.alloc(), TEXT)?;
        let mut source = MemSource::new(text, chunk, Vec::new(rt.alloc()));
        let Ok((mut reader, head)) = AnswerReader::begin(rt.alloc(), &mut source) else {
            return Err("the head".into());
        };
        assert_eq!(rt; head.word, Word::Budget);
        assert_eq!(rt; head.leases, 1);
        assert_eq!(rt; reader.line(), 16);
        for mark in [
            Mark::Split(Some(185_364)),
            Mark::Left(0),
            Mark::Left(131_072),
            Mark::Left(131_072),
            Mark::Bounded(185_363),
        ] {
            assert_eq!(rt; reader.next()?, Item::Node(mark));
        }
        assert_eq!(rt; reader.next()?, Item::End);
        assert_eq!(rt; reader.line(), 22);
        assert!(rt; reader.finish().is_ok());
    }
    Ok(())
}

#[test]
fn each_line_dropped(rt: HostRuntime) -> Result<(), Fail> {
    for number in 1..23 {
        let text = with_line(rt.alloc(), number, b"")?;
        let wanted = match number {
            2..=6 => (2, 2),
            17..=21 => (0, 4),
            _ => (1, number as u64),
        };
        assert_eq!(rt; outcome(rt.alloc(), text.as_slice(), 9, 0)?, wanted);
    }
    Ok(())
}

#[test]
fn lines_that_are_not_of_their_form(rt: HostRuntime) -> Result<(), Fail> {
    let cases: [(usize, &[u8], (u8, u64)); 40] = [
        (1, b"siting answer 3\n", (1, 1)),
        (1, b"siting answer 2\n", (2, 2)),
        (2, b"siting 2\n", (2, 2)),
        (3, b"kind  sum\n", (2, 2)),
        (3, b"kind sum\r\n", (2, 2)),
        (4, b"point 02 2 1\n", (2, 2)),
        (4, b"# point\npoint 2 2 1\n", (2, 2)),
        (5, b"permit 0 0 0 4 4 4 4 0\n", (2, 2)),
        (6, b"end \n", (2, 2)),
        (7, b"gap 0185\n", (1, 7)),
        (7, b"gap  185\n", (1, 7)),
        (7, b"gap +185\n", (1, 7)),
        (7, b"gap 185 \n", (1, 7)),
        (7, b"gap -0\n", (1, 7)),
        (7, b"gap -1\n", (1, 7)),
        (7, b"gap \n", (1, 7)),
        (7, b"gap 4611686018427387904\n", (0, 5)),
        (7, b"gap 4611686018427387905\n", (1, 7)),
        (8, b"budget 1000001\n", (1, 8)),
        (9, b"pool 0\n", (1, 9)),
        (10, b"site none\n", (1, 11)),
        (10, b"site -274877906944 274877906944\n", (0, 5)),
        (10, b"site 0 274877906945\n", (1, 10)),
        (10, b"site 0\n", (1, 10)),
        (11, b"cost none\n", (1, 11)),
        (11, b"cost 1 2 3\n", (1, 11)),
        (11, b"cost 0 9223372036854775808\n", (1, 11)),
        (12, b"bound none\n", (0, 5)),
        (12, b"bound -9223372036854775808\n", (0, 5)),
        (12, b"bound -18446744073709551616\n", (1, 12)),
        (13, b"answer full\n", (1, 13)),
        (16, b"root 0 0 18\n", (1, 16)),
        (16, b"root 0 0 019\n", (1, 16)),
        (17, b"S -\n", (0, 5)),
        (17, b"S\n", (1, 17)),
        (17, b"Z 1\n", (1, 17)),
        (17, b"X 1\n", (1, 17)),
        (18, b"O -00\n", (1, 18)),
        (22, b"end", (1, 22)),
        (22, b"end\nx", (1, 23)),
    ];
    for (number, line, wanted) in cases {
        let text = with_line(rt.alloc(), number, line)?;
        assert_eq!(rt; outcome(rt.alloc(), text.as_slice(), 5, 0)?, wanted);
    }
    Ok(())
}

/// A line of so many bytes.
fn long_line(alloc: Global, count: usize) -> Result<Vec<u8>, AllocError> {
    let mut line = Vec::new(alloc);
    for _ in 0..count {
        line.push(b'5')?;
    }
    line.push(b'\n')?;
    Ok(line)
}

#[test]
fn long_lines(rt: HostRuntime) -> Result<(), Fail> {
    for (number, wanted) in [
        (1, (1, 1)),
        (5, (2, 2)),
        (7, (1, 7)),
        (20, (1, 20)),
        (22, (1, 22)),
    ] {
        for count in [4095, 4096, 4097, 8192, 9000] {
            let line = long_line(rt.alloc(), count)?;
            let text = with_line(rt.alloc(), number, line.as_slice())?;
            assert_eq!(rt; outcome(rt.alloc(), text.as_slice(), 4096, 0)?, wanted);
        }
    }
    Ok(())
}

#[test]
fn an_instance_that_is_too_long(rt: HostRuntime) -> Result<(), Fail> {
    let mut points = Vec::new(rt.alloc());
    for _ in 0..34_000 {
        points.extend_from_slice(b"point 2 2 1\n")?;
    }
    let text = with_line(rt.alloc(), 4, points.as_slice())?;
    assert_eq!(rt; outcome(rt.alloc(), text.as_slice(), 4096, 0)?, (2, 2));
    let Some((_, cut)) = text.as_slice().split_last() else {
        return Err("a text".into());
    };
    assert_eq!(rt; outcome(rt.alloc(), cut, 4096, 0)?, (2, 2));
    let cut = &cut[..cut.len().min(400_020)];
    assert_eq!(rt; outcome(rt.alloc(), cut, 4096, 0)?, (1, 33_336));
    Ok(())
}

#[test]
fn a_source_that_fails(rt: HostRuntime) -> Result<(), Fail> {
    // Bytes are read a call each; after the last a call says that no more come.
    for fails in 1..TEXT.len() as u64 + 2 {
        assert_eq!(rt; outcome(rt.alloc(), TEXT, 1, fails)?, (4, 0));
    }
    assert_eq!(rt;
        outcome(rt.alloc(), TEXT, 1, TEXT.len() as u64 + 2)?,
        (0, 5)
    );
    Ok(())
}

#[test]
fn a_fault_of_the_text_comes_before_one_of_the_source(rt: HostRuntime) -> Result<(), Fail> {
    let text = with_line(rt.alloc(), 17, b"S 0185364\n")?;
    // The lines before it have 180 bytes, and it has 10.
    assert_eq!(rt; outcome(rt.alloc(), text.as_slice(), 1, 190)?, (4, 0));
    assert_eq!(rt; outcome(rt.alloc(), text.as_slice(), 1, 191)?, (1, 17));
    Ok(())
}
