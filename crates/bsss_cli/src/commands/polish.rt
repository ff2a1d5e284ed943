//! The command `polish`.

ghost use Rattle.bsss_cli.specs.Polish as polishing;
ghost use Rattle.bsss_cli.specs.Ports.{source_ghosts, sink_ghosts};
ghost use Rattle.bsss_cli.specs.Outcome.{Ran};

use crate::commands::load::load_answer;
use crate::output::say_polished;
use crate::status::Status;
use centre_bound::polished;
use port_io::{Sink, Source};
use std::alloc::Global;

/// Reads an answer, and writes its bound and a better one.
pub(crate) fn run_polish<S: Source, K: Sink>(alloc: Global, source: &mut S, sink: &mut K) -> Status
    ensures { Ran (source_ghosts S.left S.faults S.is_strict)
        (sink_ghosts K.room K.taken K.faults K.is_strict)
        polishing.polish source.old source.new sink.old sink.new result }
{
    let (head, nodes) = match load_answer(alloc, source, sink) {
        Err(status) => return status,
        Ok(loaded) => loaded,
    };
    let better = polished(&head.instance, &nodes);
    say_polished(head.bound, better, sink)
}
