//! Runs of the program over memory.

ghost use Rattle.std.specs.Prelude.{◌<◌};

mod checks;
mod failing_ports;
mod limits;
mod nears;
mod polishes;
mod refusals;
mod resumes;
mod solves;
mod teams;
mod trials;

use crate::{Argv, GapRule, Gate, OpenGate, Status, gap_of, run};
use cert_checker::CheckFault;
use port_io::{MemSink, MemSource};
use site_model::Site;
use std::alloc::Global;
use std::sync::Wait;
use std::test::Fail;
use std::thread::Threads;

/// A town at the origin, and a triangle that doesn't reach it.
const CORNER: &str = "siting 1\nkind sum\npoint 0 0 1\npermit 3 4 9 4 3 10\nend\n";

/// A town in the middle of a square.
const LONE_TOWN: &str = "siting 1\nkind sum\npoint 2 2 1\npermit 0 0 4 0 4 4 0 4\nend\n";

/// A town inside a forbidden square that covers the permitted one.
const NOWHERE: &str = "siting 1\nkind sum\npoint 0 0 1\npermit 0 0 2 0 2 2 0 2\n\
    forbid -10 -10 10 -10 10 10 -10 10\nend\n";

/// Forbidden polygons that leave one point, which isn't on the grid.
const OFF_THE_GRID: &str = "siting 1\nkind sum\npoint 0 0 1\npermit 0 0 1 0 0 1\n\
    forbid -8 -8 8 -8 8 8\nforbid -3 7 -3 -7 4 -7\nforbid 7 -3 7 4 -7 4\nend\n";

/// Ten towns, and a forbidden polygon among them.
const TEN_TOWNS: &str = "siting 1\nkind sum\npoint 12000 34000 45000\npoint 56000 71000 120000\n\
    point 80500 22300 64000\npoint 33300 90100 18000\npoint 97000 55000 27000\n\
    point 5000 80000 9000\npoint 61000 48000 210000\npoint 47000 15000 33000\n\
    point 72000 93000 51000\npoint 25000 60000 76000\n\
    permit 0 0 100000 0 100000 100000 0 100000\n\
    forbid 40000 50000 58000 52000 60000 62000 45000 66000 38000 58000\nend\n";

/// The answer to `CORNER` with no gap.
pub(super) const CORNER_ANSWER: &str =
    "siting answer 1\nsiting 1\nkind sum\npoint 0 0 1\npermit 3 4 9 4 3 10\nend\ngap 0\n\
    budget 100000\npool 100000\nsite 196608 262144\ncost 327680 327680\nbound 327680\n\
    answer solved\nopen 0\nleases 1\nroot 196608 262144 19\nB 327680\nend\n";

/// The answer to `LONE_TOWN` after one lease.
const ONE_LEASE_ANSWER: &str =
    "siting answer 1\nsiting 1\nkind sum\npoint 2 2 1\npermit 0 0 4 0 4 4 0 4\nend\ngap 185\n\
    budget 1\npool 100000\nsite 0 0\ncost 185363 185364\nbound 0\nanswer budget\nopen 0\n\
    leases 1\nroot 0 0 19\nS 185364\nO 0\nO 131072\nO 131072\nB 185363\nend\n";

/// The words of a line, which single spaces separate.
fn words_of(alloc: Global, line: &str) -> Result<Argv, Fail> {
    let mut words = Argv::new(alloc);
    if !line.is_empty() {
        for word in line.split(' ') {
            words.push(word)?;
        }
    }
    Ok(words)
}

/// A source of this text, in chunks of 64 bytes.
fn source_of(alloc: Global, text: &str, fails: u64) -> Result<MemSource, Fail> {
    let held = Vec::from_slice(alloc, text.as_bytes())?;
    Ok(MemSource::new(held, 64, Vec::from_slice(alloc, &[fails])?))
}

/// A sink with room for 100,000 bytes, which takes `chunk` at a call.
fn sink_of(alloc: Global, chunk: usize, fails: u64) -> Result<MemSink, Fail>
    requires { 0 < chunk }
{
    let fails = Vec::from_slice(alloc, &[fails])?;
    Ok(MemSink::with_room(alloc, 100_000, chunk, fails)?)
}

/// The status with which a run ends whose workers pass a gate, and what it writes.
fn run_gated<G: Gate + Sync>(
    rt: &(impl Threads + Wait + Sync),
    alloc: Global,
    line: &str,
    input: &str,
    gate: &G,
) -> Result<(Status, MemSink), Fail> {
    let words = words_of(alloc, line)?;
    let mut source = source_of(alloc, input, 0)?;
    let mut sink = sink_of(alloc, 64, 0)?;
    let status = run(rt, alloc, &words, &mut source, &mut sink, gate);
    Ok((status, sink))
}

/// The code with which a run ends, and what it writes.
pub(super) fn run_words(
    rt: &(impl Threads + Wait + Sync),
    alloc: Global,
    line: &str,
    input: &str,
) -> Result<(u8, MemSink), Fail> {
    let (status, sink) = run_gated(rt, alloc, line, input, &OpenGate)?;
    Ok((status.code(), sink))
}

#[test]
fn a_made_instance_is_written(rt: HostRuntime) -> Result<(), Fail> {
    let (code, sink) = run_words(&rt, rt.alloc(), "make seed=7 points=1", "")?;
    assert_eq!(rt; code, 0);
    let wanted =
        "siting 1\nkind sum\npoint 58692 29418 869\npermit 0 0 100000 0 100000 100000 0 100000\n\
        forbid 40000 40000 60000 40000 60000 60000 40000 60000\nend\n";
    assert_eq!(rt; sink.bytes(), wanted.as_bytes());
    Ok(())
}

#[test]
fn the_gap_asked(rt: HostRuntime) {
    let opening = Some((Site::of(0, 0), -185364));
    assert_eq!(rt; gap_of(GapRule::Ppm(1000), opening), 185);
    assert_eq!(rt; gap_of(GapRule::Ppm(1000), None), 65536);
    assert_eq!(rt; gap_of(GapRule::Fixed(7), None), 7);
}

#[test]
fn each_status_has_its_code(rt: HostRuntime) {
    let fault = CheckFault {
        number: 1,
        line: 1,
        differ: None,
    };
    let cases = [
        (Status::Solved, 0),
        (Status::Accepted, 0),
        (Status::Made, 0),
        (Status::Polished, 0),
        (Status::Near, 0),
        (Status::Usage, 2),
        (Status::BadInstance { number: 1, line: 1 }, 3),
        (Status::Rejected(fault), 5),
        (Status::ReadFault, 6),
        (Status::WriteFault, 7),
        (Status::NoMemory, 8),
        (Status::TooLong, 9),
        (Status::PoolFull, 10),
        (Status::Budget, 11),
        (Status::Floor, 12),
        (Status::Empty, 13),
        (Status::SmallBudget { has: 0, wants: 1 }, 14),
        (Status::SmallPool { has: 2, wants: 3 }, 15),
        (Status::NoSite, 16),
        (Status::TooMany { limit: 1 }, 17),
    ];
    for (status, code) in cases {
        assert_eq!(rt; status.code(), code);
    }
}
