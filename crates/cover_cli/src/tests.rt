//! Texts of covers from source to sink, and ports that fail.

use super::*;
use cover_check::CoverFault;
use cover_text::TextFault;
use port_io::{MemSink, MemSource};
use std::alloc::Global;
use std::test::Fail;

/// The status of a run over ports that take and give 64 bytes at a call and of which one call fails,
/// the first being 1, or none for 0; and what the sink took.
fn run_over(
    alloc: Global,
    text: &str,
    failing_read: u64,
    failing_write: u64,
) -> Result<(Status, MemSink), Fail> {
    let held = Vec::from_slice(alloc, text.as_bytes())?;
    let mut source = MemSource::new(held, 64, Vec::from_slice(alloc, &[failing_read])?);
    let fails = Vec::from_slice(alloc, &[failing_write])?;
    let mut sink = MemSink::with_room(alloc, 1000, 64, fails)?;
    let status = run(alloc, &mut source, &mut sink);
    Ok((status, sink))
}

/// An instance that permits the square from (0, 0) to (10, 10), in lengths.
const SQUARE: &str = "siting 1\nkind sum\npoint 0 0 1\npermit 0 0 10 0 10 10 0 10\nend\n";

/// A bowtie, of which one wing is wound round; a square with a spike; two squares with a common
/// border; and a square whose tile ends where it isn't permitted.
const DRAWINGS: [(&str, &str); 8] = [
    (
        "region 0 0 4 4 4 0 0 4\ntriangle 0 0 4 4 4 0 0\ntriangle 0 0 4 0 0 4 1\n",
        "covered\n",
    ),
    (
        "region 0 0 4 4 4 0 0 4\ntriangle 0 0 4 4 4 0 0\n",
        "uncovered edges\n",
    ),
    (
        "region 0 0 8 0 30 30 8 0 8 8\ntriangle 0 0 8 0 8 8 1\ntriangle 8 0 30 30 8 0 0\n",
        "covered\n",
    ),
    (
        "region 0 0 8 0 8 8\nregion 0 0 8 8 0 8\ntriangle 0 0 8 0 8 8 1\ntriangle 0 0 8 8 0 8 1\n",
        "covered\n",
    ),
    (
        "region 0 0 30 0 30 5\ntriangle 0 0 30 0 30 5 1\n",
        "uncovered triangle line 5\n",
    ),
    (
        "region 30 0 40 0 40 5\ntriangle 30 0 40 0 40 5 0\n",
        "covered\n",
    ),
    (
        "region 20 0 40 0 40 5\ntriangle 20 0 40 0 40 5 0\n",
        "uncovered tile line 5\n",
    ),
    (
        "region 0 0 8 0 8 8\ntriangle 0 0 8 0 8 8 2\n",
        "uncovered owner line 5\n",
    ),
];

#[test]
fn what_is_written(rt: HostRuntime) -> Result<(), Fail> {
    for (body, want) in DRAWINGS {
        let text = format!(in rt.alloc(); "cover 1\nshift 1\ntile 0 0 20 20\n{body}end\n{SQUARE}")?;
        let (_, sink) = run_over(rt.alloc(), text.as_str(), 0, 0)?;
        assert_eq!(rt; sink.bytes(), want.as_bytes(), "{body}");
    }
    Ok(())
}

#[test]
fn texts_with_a_fault_and_ports_that_fail(rt: HostRuntime) -> Result<(), Fail> {
    let bad_instance = "cover 1\nshift 0\ntile 0 0 1 1\nend\nend\n";
    let cases = [
        ("siting 1\n", 0, 0, 3, "bad cover 1 line 1\n"),
        (bad_instance, 0, 0, 3, "bad instance 1 line 5\n"),
        (bad_instance, 1, 0, 6, ""),
        (bad_instance, 2, 0, 6, ""),
        (bad_instance, 0, 1, 7, ""),
        (bad_instance, 3, 2, 3, "bad instance 1 line 5\n"),
    ];
    for (text, failing_read, failing_write, code, want) in cases {
        let (status, sink) = run_over(rt.alloc(), text, failing_read, failing_write)?;
        assert_eq!(rt; status.code(), code);
        assert_eq!(rt; sink.bytes(), want.as_bytes());
    }
    Ok(())
}

#[test]
fn codes_of_statuses(rt: HostRuntime) {
    let fault = TextFault { number: 1, line: 1 };
    let table = [
        (Status::Said(Verdict::Covered), 0),
        (Status::Said(Verdict::BadCover(fault)), 3),
        (Status::Said(Verdict::Uncovered(CoverFault::Edges)), 5),
        (Status::Said(Verdict::TooLong), 9),
        (Status::ReadFault, 6),
        (Status::WriteFault, 7),
        (Status::NoMemory, 8),
    ];
    for (status, code) in table {
        assert_eq!(rt; status.code(), code);
    }
}
