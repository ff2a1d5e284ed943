//! Loading an answer, as `resume`, `polish` and `near` begin.

ghost use Rattle.std.specs.Prelude.{◌≡◌, MatchResult};
ghost use Rattle.bsss_cli.specs.Load.{IsLoaded, loading};
ghost use Rattle.bsss_cli.specs.Ports.{source_ghosts, sink_ghosts};
ghost use Rattle.bsss_cli.specs.Outcome.{Ran};

use crate::output::{say, say_rejected};
use crate::status::Status;
use answer_model::Head;
use discard_log::NodeList;
use port_io::{Sink, Source};
use resume_job::{LoadError, load};
use std::alloc::Global;

/// Reads a valid answer to its end. `Ok` has its head and its nodes, and nothing is written yet;
/// `Err` has the status with which the run ended.
pub(crate) fn load_answer<S: Source, K: Sink>(
    alloc: Global,
    source: &mut S,
    sink: &mut K,
) -> Result<(Head, NodeList), Status>
    ensures { MatchResult result
        (λ loaded. (sink.new ≡ sink.old) × IsLoaded (source_ghosts S.left S.faults S.is_strict)
        source.old source.new loaded.0 loaded.1)
        (λ status. Ran (source_ghosts S.left S.faults S.is_strict)
        (sink_ghosts K.room K.taken K.faults K.is_strict)
        loading source.old source.new sink.old sink.new status) }
{
    match load(alloc, source) {
        Ok(loaded) => Ok(loaded),
        Err(LoadError::Check(fault)) => Err(say_rejected(fault, sink)),
        Err(LoadError::TooLong) => Err(say(b"too long\n", Status::TooLong, sink)),
        Err(LoadError::ReadFault) => Err(Status::ReadFault),
        Err(LoadError::NoMemory) => Err(Status::NoMemory),
    }
}
