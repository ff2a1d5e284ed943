//! The command `near`.

ghost use Rattle.command_line.specs.Command.{IsNearing};
ghost use Rattle.bsss_cli.specs.Near as nearing;
ghost use Rattle.bsss_cli.specs.Ports.{source_ghosts, sink_ghosts};
ghost use Rattle.bsss_cli.specs.Outcome.{Ran};

use crate::commands::load::load_answer;
use crate::output::{say, say_near, say_too_many};
use crate::status::Status;
use near_set::count_near;
use port_io::{Sink, Source};
use std::alloc::Global;

/// Reads an answer, and writes the near set of its upper cost and the slack, which is in cost
/// units.
pub(crate) fn run_near<S: Source, K: Sink>(
    alloc: Global,
    slack: i64,
    depth: u8,
    limit: u32,
    source: &mut S,
    sink: &mut K,
) -> Status
    requires { IsNearing slack depth limit }
    ensures { Ran (source_ghosts S.left S.faults S.is_strict)
        (sink_ghosts K.room K.taken K.faults K.is_strict)
        (nearing.near slack depth limit) source.old source.new sink.old sink.new result }
{
    let (head, _) = match load_answer(alloc, source, sink) {
        Err(status) => return status,
        Ok(loaded) => loaded,
    };
    let Some(upper) = head.upper_cost() else {
        return say(b"no site\n", Status::NoSite, sink);
    };
    let cost = upper + slack;
    match count_near(&head.instance, cost, depth, limit) {
        None => say_too_many(limit, sink),
        Some(count) => say_near(&head.instance, cost, depth, count, sink),
    }
}
