//! Texts, their first faults, and their canonical texts.

use super::*;
use port_io::{Out, SureSink};
use std::alloc::Global;
use std::test::Fail;

/// The number of a text's first fault and its line, or (0, 0) where it says an instance.
fn fault_of(alloc: Global, text: &[u8]) -> (u8, u64) {
    match read_instance(alloc, text) {
        Ok(_) => (0, 0),
        Err(InstanceError::Fault(fault)) => (fault.number, fault.line),
        Err(InstanceError::NoMemory) => (255, 0),
    }
}

/// A sink that took the canonical text of the instance that a text says.
fn canonical_text_of(alloc: Global, text: &[u8]) -> Result<SureSink, Fail> {
    let instance = read_instance(alloc, text)?;
    let mut sink = SureSink::with_room(alloc, 1000)?;
    let mut out = Out::new(&mut sink);
    write_instance(&instance, &mut out)?;
    out.finish()?;
    Ok(sink)
}

#[test]
fn the_first_fault_of_the_first_line_with_one(rt: HostRuntime) {
    let cases: [(&[u8], (u8, u64)); 12] = [
        (
            b"siting 1\nkind sum\npoint 0 0 8000000\npoint 1 0 8000001\npermit 0 0 1 0 0 1\nend\n",
            (7, 4),
        ),
        (
            b"siting 1\nkind sum\npoint 0 0 8000000\npoint 1 0 8000000\npermit 0 0 1 0 0 1\nend\n",
            (0, 0),
        ),
        (
            b"siting 1\nkind sum\npoint 0 0 1\npermit 4 0 6 8 0 3 8 3 2 8\nend\n",
            (10, 4),
        ),
        (
            b"siting 1\nkind sum\npoint 0 0 1\npermit 3 4 9 4 3 10\nen",
            (2, 5),
        ),
        (
            b"siting 1\nkind sum\npoint 0 0 1\npermit 3 4 9 4 3 10\nend",
            (0, 0),
        ),
        (b"", (1, 1)),
        (b"#a", (1, 2)),
        (
            b"siting 1\nkind sum\npoint 0 0 1\npermit 3 4 9 4 3 10\n",
            (16, 5),
        ),
        (
            b"siting 1\nkind sum\npoint 0 0 99999999999999999999999999999999999999999\npermit 3 4 9 4 3 10\nend\n",
            (4, 3),
        ),
        (
            b"siting 1\nkind sum\npoint 0 0 -0\npermit 3 4 9 4 3 10\nend\n",
            (5, 3),
        ),
        (
            b"siting 1\nkind sum\npoint 0 0 1.5\npermit 3 4 9 4 3 10\nend\n",
            (3, 3),
        ),
        (b"siting 1\nkind sum\npoint 9999999 x 0\nend\n", (3, 3)),
    ];
    for (text, fault) in cases {
        assert_eq!(rt; fault_of(rt.alloc(), text), fault);
    }
}

/// Each number of an instance at its limit and one past it. The counts and the sum of the weights
/// are tried where the program is.
#[test]
fn each_number_at_its_limit(rt: HostRuntime) -> Result<(), Fail> {
    // What stands in the lines of the point and of the polygon, and the first fault.
    let cases = [
        (
            "1000000 -1000000 16000000 4000000",
            "-1000000 1000000",
            (0, 0),
        ),
        ("-1000000 1000000 -16000000 1", "1000000 -1000000", (0, 0)),
        ("1000001 0 1 1", "0 9", (4, 3)),
        ("-1000001 0 1 1", "0 9", (4, 3)),
        ("0 1000001 1 1", "0 9", (4, 3)),
        ("0 -1000001 1 1", "0 9", (4, 3)),
        ("0 0 16000001 1", "0 9", (4, 3)),
        ("0 0 -16000001 1", "0 9", (4, 3)),
        ("0 0 1 4000001", "0 9", (4, 3)),
        ("0 0 1 0", "0 9", (4, 3)),
        ("0 0 1 1", "1000001 9", (4, 4)),
        ("0 0 1 1", "-1000001 9", (4, 4)),
        ("0 0 1 1", "0 1000001", (4, 4)),
        ("0 0 1 1", "0 -1000001", (4, 4)),
    ];
    for (point, vertex, fault) in cases {
        let text = format!(in rt.alloc();
            "siting 2\nkind sum\npoint {point}\npermit 1 1 2 1 {vertex}\nend\n"
        )?;
        assert_eq!(rt;
            fault_of(rt.alloc(), text.as_bytes()),
            fault,
            "{point}, {vertex}"
        );
    }
    Ok(())
}

#[test]
fn faults_of_the_end_and_of_cutoffs(rt: HostRuntime) {
    let cases: [(&[u8], (u8, u64)); 12] = [
        (
            b"siting 2\nkind sum\npoint 2 2 1 0\npermit 0 0 4 0 4 4 0 4\nend\n",
            (4, 3),
        ),
        (
            b"siting 1\nkind sum\npoint 2 2 1 0\npermit 0 0 4 0 4 4 0 4\nend\n",
            (2, 3),
        ),
        (
            b"siting 1\nkind sum\npoint 2 2 1 1\npermit 0 0 4 0 4 4 0 4\nend\n",
            (2, 3),
        ),
        (b"siting 2\nkind sum\npoint 2 2 0 4000001\nend\n", (4, 3)),
        (b"siting 2\nkind sum\npoint 2 2 0 4000000\nend\n", (5, 3)),
        (b"siting 3\n", (1, 1)),
        (b"siting 1\nkind sum\nkind max\n", (13, 3)),
        (b"siting 1\nend\n", (12, 2)),
        (b"siting 1\nkind max\nend\n", (14, 3)),
        (b"siting 1\nkind max\npoint 0 0 1\nend\n", (15, 4)),
        (
            b"siting 1\nkind sum\npoint 0 0 1\npermit 3 4 9 4 3 10\nend\n\n #\nend\n",
            (17, 8),
        ),
        (b"siting 1\npermit 0 0 1 0 2000000\n", (2, 2)),
    ];
    for (text, fault) in cases {
        assert_eq!(rt; fault_of(rt.alloc(), text), fault);
    }
}

#[test]
fn the_canonical_text_of_what_was_read(rt: HostRuntime) -> Result<(), Fail> {
    let cases: [(&[u8], &[u8]); 3] = [
        (
            b"# a comment\n\nsiting\t1\r\nkind\tsum\r\npoint\t0\t0\t1\r\npermit\t+03\t4\t9\t4\t+03\t10\r\nend\r\n# after\r\n",
            b"siting 1\nkind sum\npoint 0 0 1\npermit 3 4 9 4 3 10\nend\n",
        ),
        (
            b"siting 1\nkind sum\npoint 2 2 1\npermit 0 0 0 4 4 4 4 0\nend\n",
            b"siting 1\nkind sum\npoint 2 2 1\npermit 0 0 4 0 4 4 0 4\nend\n",
        ),
        (
            b"siting 2\nforbid 0 0 1 0 0 1\npermit 0 0 4 0 4 4 0 4\npoint -2 2 -7 1\npoint 3 3 1\nkind max\nend",
            b"siting 2\nkind max\npoint -2 2 -7 1\npoint 3 3 1\npermit 0 0 4 0 4 4 0 4\nforbid 0 0 1 0 0 1\nend\n",
        ),
    ];
    for (text, canonical) in cases {
        let sink = canonical_text_of(rt.alloc(), text)?;
        assert_eq!(rt; sink.bytes(), Some(canonical));
    }
    Ok(())
}
