//! Solves by several workers.

use super::{
    CORNER, CORNER_ANSWER, LONE_TOWN, ONE_LEASE_ANSWER, run_gated, run_words, sink_of, source_of,
    words_of,
};
use crate::{Gate, Moment, OpenGate, Status, run};
use std::sync::atomic::{AtomicBool, AtomicU64, Ordering};
use std::test::Fail;

/// The answer to `LONE_TOWN` from its opening alone.
const OPENING_ANSWER: &str =
    "siting answer 1\nsiting 1\nkind sum\npoint 2 2 1\npermit 0 0 4 0 4 4 0 4\nend\ngap 185\n\
    budget 0\npool 100000\nsite 0 0\ncost 185363 185364\nbound 0\nanswer budget\nopen 0\n\
    leases 0\nroot 0 0 19\nO 0\nend\n";

#[test]
fn the_one_answer_of_a_team(rt: HostRuntime) -> Result<(), Fail> {
    let cases = [
        ("solve budget=0 workers=2", LONE_TOWN, 11, OPENING_ANSWER),
        ("solve budget=1 workers=2", LONE_TOWN, 11, ONE_LEASE_ANSWER),
        ("solve gap=0 workers=3", CORNER, 0, CORNER_ANSWER),
    ];
    for (line, instance, code, answer) in cases {
        let (ended, sink) = run_words(&rt, rt.alloc(), line, instance)?;
        assert_eq!(rt; ended, code, "{line}");
        assert_eq!(rt; sink.bytes(), answer.as_bytes(), "{line}");
    }
    Ok(())
}

#[test]
fn each_answer_of_a_team_is_accepted(rt: HostRuntime) -> Result<(), Fail> {
    let lines = [
        "solve workers=2",
        "solve workers=64",
        "solve gap=0 budget=50 workers=4",
        "solve pool=1 workers=3",
        "solve pool=4 budget=7 workers=5",
    ];
    for line in lines {
        let (_, sink) = run_words(&rt, rt.alloc(), line, LONE_TOWN)?;
        let (code, _) = run_words(&rt, rt.alloc(), "check", str::from_utf8(sink.bytes())?)?;
        assert_eq!(rt; code, 0, "{line}");
    }
    Ok(())
}

#[test]
fn a_failing_source_and_a_failing_sink_of_a_team(rt: HostRuntime) -> Result<(), Fail> {
    // The call that fails of the source, that of the sink, and the status.
    let cases = [(1, 0, Status::ReadFault), (0, 1, Status::WriteFault)];
    for (read, write, wanted) in cases {
        let words = words_of(rt.alloc(), "solve workers=2")?;
        let mut source = source_of(rt.alloc(), LONE_TOWN, read)?;
        let mut sink = sink_of(rt.alloc(), 64, write)?;
        let status = run(&rt, rt.alloc(), &words, &mut source, &mut sink, &OpenGate);
        assert_eq!(rt; status, wanted);
        assert!(rt; sink.bytes().is_empty());
    }
    Ok(())
}

/// How often the gate that waits looks before it gives up.
const LOOKS: u32 = 200_000_000;

/// A gate that holds each worker that gets a lease after the first, until one lease more was got
/// than there are workers.
#[derive(Drop)]
struct Meeting {
    workers: u64,
    leased: AtomicU64,
    gave_up: AtomicBool,
}

impl Gate for Meeting {
    fn pass(&self, moment: Moment) {
        if moment != Moment::Leased {
            return;
        }
        let before = self.leased.fetch_add(1, Ordering::SeqCst);
        if before == 0 || before >= self.workers {
            return;
        }
        for _ in 0..LOOKS {
            if self.leased.load(Ordering::SeqCst) > self.workers {
                return;
            }
        }
        self.gave_up.store(true, Ordering::SeqCst);
    }
}

#[test]
fn all_workers_at_once(rt: HostRuntime) -> Result<(), Fail> {
    let cases = [
        (2, "solve budget=1000 workers=2"),
        (3, "solve budget=1000 workers=3"),
        (4, "solve budget=1000 workers=4"),
    ];
    for (workers, line) in cases {
        let gate = Meeting {
            workers,
            leased: AtomicU64::new(0),
            gave_up: AtomicBool::new(false),
        };
        let (status, _) = run_gated(&rt, rt.alloc(), line, LONE_TOWN, &gate)?;
        assert_eq!(rt; status, Status::Solved, "{line}");
        assert!(rt; !gate.gave_up.load(Ordering::SeqCst), "{line}");
    }
    Ok(())
}

/// A gate that counts how often each moment was passed. It holds who got a lease until others have
/// found nothing waiting, and the turn taken.
#[derive(Drop)]
struct Counts {
    leased: AtomicU64,
    judged: AtomicU64,
    idle: AtomicU64,
    busy: AtomicU64,
}

impl Gate for Counts {
    fn pass(&self, moment: Moment) {
        let count = match moment {
            Moment::Leased => &self.leased,
            Moment::Judged => &self.judged,
            Moment::Idle => &self.idle,
            Moment::Busy => &self.busy,
        };
        count.fetch_add(1, Ordering::SeqCst);
        if moment != Moment::Leased {
            return;
        }
        for _ in 0..LOOKS {
            if self.idle.load(Ordering::SeqCst) > 0 && self.busy.load(Ordering::SeqCst) > 0 {
                return;
            }
        }
    }
}

#[test]
fn each_moment_is_passed(rt: HostRuntime) -> Result<(), Fail> {
    let gate = Counts {
        leased: AtomicU64::new(0),
        judged: AtomicU64::new(0),
        idle: AtomicU64::new(0),
        busy: AtomicU64::new(0),
    };
    let (status, sink) = run_gated(&rt, rt.alloc(), "solve workers=4", LONE_TOWN, &gate)?;
    assert_eq!(rt; status, Status::Solved);
    let leases = gate.leased.load(Ordering::SeqCst);
    assert_eq!(rt; gate.judged.load(Ordering::SeqCst), leases);
    let wanted = format!(in rt.alloc(); "leases {leases}")?;
    let answer = str::from_utf8(sink.bytes())?;
    assert!(rt; answer.split('\n').any(|line| line == wanted.as_str()));
    assert!(rt; gate.idle.load(Ordering::SeqCst) > 0);
    assert!(rt; gate.busy.load(Ordering::SeqCst) > 0);
    Ok(())
}
