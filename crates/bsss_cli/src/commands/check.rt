//! The command `check`.

ghost use Rattle.std.specs.Prelude.{◌≤◌, true, false};
ghost use Rattle.bsss_cli.specs.Check as checks;
ghost use Rattle.bsss_cli.specs.Check.{SaysVerdict};
ghost use Rattle.bsss_cli.specs.Ports.{source_ghosts, sink_ghosts};
ghost use Rattle.bsss_cli.specs.Outcome.{Ran};

use crate::output::{say, say_rejected};
use crate::status::Status;
use cert_checker::{Accepted, CheckError, check};
use pair_check::{OpenCheckGate, check_with};
use port_io::{Sink, Source};
use std::alloc::Global;
use std::thread::Threads;

/// Reads the text of an answer, and says whether it is that of a valid one.
pub(crate) fn run_check<S: Source, K: Sink>(alloc: Global, source: &mut S, sink: &mut K) -> Status
    ensures { Ran (source_ghosts S.left S.faults S.is_strict)
        (sink_ghosts K.room K.taken K.faults K.is_strict)
        (checks.check false) source.old source.new sink.old sink.new result }
{
    say_verdict(check(alloc, source), sink)
}

/// Does the same with several workers, who share the lines.
pub(crate) fn run_check_by_team<R: Threads + Sync, S: Source, K: Sink>(
    rt: &R,
    alloc: Global,
    workers: u32,
    source: &mut S,
    sink: &mut K,
) -> Status
    requires least { 1 ≤ workers }
    requires most { workers ≤ 64 }
    ensures { Ran (source_ghosts S.left S.faults S.is_strict)
        (sink_ghosts K.room K.taken K.faults K.is_strict)
        (checks.check true) source.old source.new sink.old sink.new result }
{
    say_verdict(check_with(rt, alloc, source, workers, &OpenCheckGate), sink)
}

/// Says the verdict of a check, or nothing where the source failed or memory ran out.
fn say_verdict<K: Sink>(verdict: Result<Accepted, CheckError>, sink: &mut K) -> Status
    ensures { SaysVerdict (sink_ghosts K.room K.taken K.faults K.is_strict)
        sink.old sink.new verdict result }
{
    match verdict {
        Ok(_) => say(b"accepted\n", Status::Accepted, sink),
        Err(CheckError::Fault(fault)) => say_rejected(fault, sink),
        Err(CheckError::TooLong) => say(b"too long\n", Status::TooLong, sink),
        Err(CheckError::ReadFault) => Status::ReadFault,
        Err(CheckError::NoMemory) => Status::NoMemory,
    }
}
