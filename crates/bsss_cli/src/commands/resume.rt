//! The command `resume`.

ghost use Rattle.std.specs.Prelude.{◌≡◌, ◌≤◌, ℕ, IfSome, MatchResult};
ghost use Rattle.command_line.specs.Command.{IsResuming};
ghost use Rattle.bsss_cli.specs.Resume as resuming;
ghost use Rattle.bsss_cli.specs.Reopened.{IsReopened};
ghost use Rattle.bsss_cli.specs.Ports.{source_ghosts, sink_ghosts};
ghost use Rattle.bsss_cli.specs.Outcome.{Ran};
ghost use Rattle.siting_definitions.specs.declared.TheConstants.{BUDGET_LIMIT, POOL_LIMIT};

use crate::commands::load::load_answer;
use crate::output::{say_answer, say_small_budget, say_small_pool};
use crate::status::Status;
use pool_core::{Job, Pool};
use port_io::{Sink, Source};
use resume_job::{ReopenError, reopen};
use search_answer::{finish, finish_by_workers};
use site_workers::{Gate, alone, team};
use std::alloc::Global;
use std::sync::Wait;
use std::thread::Threads;

/// Reads an answer, goes on from it with one worker, and writes the answer that this ends with.
pub(crate) fn run_resume<S: Source, K: Sink>(
    alloc: Global,
    budget: u32,
    pool: Option<u32>,
    source: &mut S,
    sink: &mut K,
) -> Status
    requires { IsResuming budget pool 1 }
    ensures { Ran (source_ghosts S.left S.faults S.is_strict)
        (sink_ghosts K.room K.taken K.faults K.is_strict)
        (resuming.resume budget pool 1) source.old source.new sink.old sink.new result }
{
    let (job, first) = match begin_resume(alloc, budget, pool, source, sink) {
        Err(status) => return status,
        Ok(begun) => begun,
    };
    let closed = alone(&job, first);
    let (head, nodes) = finish(job, closed);
    say_answer(&head, &nodes, sink)
}

/// Reads an answer, goes on from it with a team of workers, and writes the answer that this ends
/// with.
pub(crate) fn run_resume_by_team<R: Threads + Wait + Sync, S: Source, K: Sink, G: Gate + Sync>(
    rt: &R,
    alloc: Global,
    budget: u32,
    pool: Option<u32>,
    workers: u32,
    source: &mut S,
    sink: &mut K,
    gate: &G,
) -> Status
    requires { IsResuming budget pool workers }
    ensures { Ran (source_ghosts S.left S.faults S.is_strict)
        (sink_ghosts K.room K.taken K.faults K.is_strict)
        (resuming.resume budget pool workers) source.old source.new sink.old sink.new result }
{
    let (job, first) = match begin_resume(alloc, budget, pool, source, sink) {
        Err(status) => return status,
        Ok(begun) => begun,
    };
    match team(rt, alloc, &job, first, workers, gate) {
        Err(_) => Status::NoMemory,
        Ok(closed) => {
            let (head, nodes) = finish_by_workers(rt, job, closed, workers);
            say_answer(&head, &nodes, sink)
        }
    }
}

/// Reads an answer, and takes all the memory of a search by one worker that goes on from it. `Ok`
/// has the job and its pool, and nothing is written yet; `Err` has the status with which the run
/// ended, of however many workers. What was read is given up before the search.
fn begin_resume<S: Source, K: Sink>(
    alloc: Global,
    budget: u32,
    pool: Option<u32>,
    source: &mut S,
    sink: &mut K,
) -> Result<(Job, Pool), Status>
    requires budget { budget ≤ BUDGET_LIMIT }
    requires pool { IfSome pool (λ n. (1 ≤ n) × (n ≤ POOL_LIMIT)) }
    ensures { MatchResult result
        (λ begun. (sink.new ≡ sink.old) × IsReopened (source_ghosts S.left S.faults S.is_strict)
        budget pool source.old source.new begun.0 begun.1)
        (λ status. (workers : ℕ) → Ran (source_ghosts S.left S.faults S.is_strict)
        (sink_ghosts K.room K.taken K.faults K.is_strict)
        (resuming.resume budget pool workers) source.old source.new sink.old sink.new status) }
{
    let (head, nodes) = match load_answer(alloc, source, sink) {
        Err(status) => return Err(status),
        Ok(loaded) => loaded,
    };
    let room = pool.unwrap_or(head.pool);
    match reopen(alloc, head, &nodes, budget, room) {
        Ok(opened) => Ok(opened),
        Err(ReopenError::SmallBudget { has, wants }) => Err(say_small_budget(has, wants, sink)),
        Err(ReopenError::SmallPool { has, wants }) => Err(say_small_pool(has, wants, sink)),
        Err(ReopenError::NoMemory) => Err(Status::NoMemory),
    }
}
