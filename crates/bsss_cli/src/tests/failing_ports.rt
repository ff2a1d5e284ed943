//! Runs over ports that fail, at each call in turn.

ghost use Rattle.std.specs.Prelude.{◌<◌};

use super::{CORNER, CORNER_ANSWER, LONE_TOWN, ONE_LEASE_ANSWER, words_of};
use crate::{OpenGate, Status, run};
use port_io::{MemSink, MemSource};
use std::alloc::Global;
use std::sync::Wait;
use std::test::Fail;
use std::thread::Threads;

/// The answer to `CORNER` that goes on from its answer: it had no split, so no lease counts.
const RESUMED_CORNER_ANSWER: &str =
    "siting answer 1\nsiting 1\nkind sum\npoint 0 0 1\npermit 3 4 9 4 3 10\nend\ngap 0\n\
    budget 100000\npool 100000\nsite 196608 262144\ncost 327680 327680\nbound 327680\n\
    answer solved\nopen 0\nleases 0\nroot 196608 262144 19\nB 327680\nend\n";

/// The status of a run over ports that take and give `chunk` bytes at a call and of which one call
/// fails, the first being 1, and what the sink took.
fn run_failing(
    rt: &(impl Threads + Wait + Sync),
    alloc: Global,
    case: (&str, &str),
    chunk: usize,
    failing_read: u64,
    failing_write: u64,
) -> Result<(Status, MemSink), Fail>
    requires { 0 < chunk }
{
    let (line, input) = case;
    let words = words_of(alloc, line)?;
    let held = Vec::from_slice(alloc, input.as_bytes())?;
    let mut source = MemSource::new(held, chunk, Vec::from_slice(alloc, &[failing_read])?);
    let fails = Vec::from_slice(alloc, &[failing_write])?;
    let mut sink = MemSink::with_room(alloc, 100_000, chunk, fails)?;
    let status = run(rt, alloc, &words, &mut source, &mut sink, &OpenGate);
    Ok((status, sink))
}

#[test]
fn each_call_fails_in_turn(rt: HostRuntime) -> Result<(), Fail> {
    // The words, the input, the status, and what is written.
    let cases = [
        ("solve gap=0", CORNER, Status::Solved, CORNER_ANSWER),
        (
            "solve budget=1",
            LONE_TOWN,
            Status::Budget,
            ONE_LEASE_ANSWER,
        ),
        (
            "solve budget=1 workers=2",
            LONE_TOWN,
            Status::Budget,
            ONE_LEASE_ANSWER,
        ),
        ("check", CORNER_ANSWER, Status::Accepted, "accepted\n"),
        ("check", ONE_LEASE_ANSWER, Status::Accepted, "accepted\n"),
        (
            "check workers=2",
            CORNER_ANSWER,
            Status::Accepted,
            "accepted\n",
        ),
        (
            "resume budget=100000",
            CORNER_ANSWER,
            Status::Solved,
            RESUMED_CORNER_ANSWER,
        ),
    ];
    for (line, input, ends, text) in cases {
        for chunk in [1, 7, 4096] {
            // All bytes come in so many reads, and one more tells their end.
            let reads = input.len().div_ceil(chunk) as u64 + 1;
            for call in 1..reads + 2 {
                let (status, sink) = run_failing(&rt, rt.alloc(), (line, input), chunk, call, 0)?;
                let fails = call <= reads;
                let (wanted, written) = if fails {
                    (Status::ReadFault, "")
                } else {
                    (ends, text)
                };
                assert_eq!(rt; status, wanted, "{line}");
                assert_eq!(rt; sink.bytes(), written.as_bytes(), "{line}");
            }
            let writes = text.len().div_ceil(chunk) as u64;
            for call in 1..writes + 2 {
                let (status, sink) = run_failing(&rt, rt.alloc(), (line, input), chunk, 0, call)?;
                let fails = call <= writes;
                let wanted = if fails { Status::WriteFault } else { ends };
                let taken = text.len().min((call as usize - 1).saturating_mul(chunk));
                assert_eq!(rt; status, wanted, "{line}");
                assert_eq!(rt; sink.bytes(), &text.as_bytes()[..taken], "{line}");
            }
        }
    }
    Ok(())
}

#[test]
fn a_sink_without_room_takes_nothing(rt: HostRuntime) -> Result<(), Fail> {
    let words = words_of(rt.alloc(), "solve gap=0")?;
    let held = Vec::from_slice(rt.alloc(), CORNER.as_bytes())?;
    let mut source = MemSource::new(held, 64, Vec::new(rt.alloc()));
    let mut sink = MemSink::with_room(rt.alloc(), 0, 64, Vec::new(rt.alloc()))?;
    let status = run(&rt, rt.alloc(), &words, &mut source, &mut sink, &OpenGate);
    assert_eq!(rt; status, Status::WriteFault);
    assert_eq!(rt; sink.bytes(), b"".as_slice());
    Ok(())
}
