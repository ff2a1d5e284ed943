//! The top call.

ghost use Rattle.std.specs.Prelude.{◌≤◌, IfOk, length};
ghost use Rattle.port_io.specs.Output.{sink_view};
ghost use Rattle.cover_cli.specs.declared.TheConstants.{TEXT_LIMIT};
ghost use Rattle.cover_cli.specs.Ports.{source_view};
ghost use Rattle.siting_definitions.specs.Instance.{IsInstance};
ghost use Rattle.cover_cli.specs.Outcome.{Judges, JudgesCover, Ran, Completes, PermitsWanted};

use crate::TEXT_LIMIT;
use crate::output::say;
use crate::status::{Status, Verdict};
use cover_check::{Cover, check};
use cover_text::{CoverError, read_cover};
use port_io::{ReadAll, Sink, Source, read_up_to};
use std::alloc::{AllocError, Global};

/// Reads the text of a cover from the source, and writes to the sink what it comes to.
pub fn run<S: Source, K: Sink>(alloc: Global, source: &mut S, sink: &mut K) -> Status
    // What it read and wrote, and the cause of each status.
    ensures ran { Ran (source_view S.left S.faults S.is_strict source.old)
        (source_view S.left S.faults S.is_strict source.new)
        (sink_view K.room K.taken K.faults K.is_strict sink.old)
        (sink_view K.room K.taken K.faults K.is_strict sink.new) result }

    // Where it writes `covered`, the instance permits each point of the tile that the planner wants.
    ensures covered { PermitsWanted (S.left source.old) result }

    // It writes `covered` to each cover, where the outside has no fault and there is memory.
    ensures complete { Completes (S.left source.old) result }
{
    read_and_say(alloc, source, sink)
}

/// The same, by what it read and wrote alone.
fn read_and_say<S: Source, K: Sink>(alloc: Global, source: &mut S, sink: &mut K) -> Status
    ensures { Ran (source_view S.left S.faults S.is_strict source.old)
        (source_view S.left S.faults S.is_strict source.new)
        (sink_view K.room K.taken K.faults K.is_strict sink.old)
        (sink_view K.room K.taken K.faults K.is_strict sink.new) result }
{
    match read_up_to(alloc, source, TEXT_LIMIT) {
        Ok(bytes) => match judge(alloc, bytes.as_slice()) {
            Ok(verdict) => say(verdict, sink),
            Err(_) => Status::NoMemory,
        },
        Err(ReadAll::TooLong) => say(Verdict::TooLong, sink),
        Err(ReadAll::ReadFault) => Status::ReadFault,
        Err(ReadAll::NoMemory) => Status::NoMemory,
    }
}

/// What the bytes of a text within the limit come to.
fn judge(alloc: Global, bytes: &[u8]) -> Result<Verdict, AllocError>
    requires { length bytes.now ≤ TEXT_LIMIT }
    ensures { IfOk result (λ verdict. Judges bytes.now verdict) }
{
    match read_cover(alloc, bytes) {
        Ok(cover) => judge_cover(alloc, &cover),
        Err(CoverError::Fault(fault)) => Ok(Verdict::BadCover(fault)),
        Err(CoverError::Instance(fault)) => Ok(Verdict::BadInstance(fault)),
        Err(CoverError::NoMemory) => Err(AllocError),
    }
}

/// What a cover comes to.
fn judge_cover(alloc: Global, cover: &Cover) -> Result<Verdict, AllocError>
    ensures limits { IsInstance cover.now.instance }
    ensures value { IfOk result (λ verdict. JudgesCover cover.now verdict) }
{
    // Shows that the instance is within the limits.
    let _instance = cover.instance();
    match check(alloc, cover)? {
        None => Ok(Verdict::Covered),
        Some(fault) => Ok(Verdict::Uncovered(fault)),
    }
}
