//! The command `solve`.

ghost use Rattle.std.specs.Prelude.{◌≡◌, ◌≤◌, IfOk, MatchResult, Some, length};
ghost use Rattle.siting_definitions.specs.Instance as Instances;
ghost use Rattle.siting_definitions.specs.Instance.{IsInstance};
ghost use Rattle.pool_core.specs.Job.{IsLawful};
ghost use Rattle.command_line.specs.Command.{IsSettings};
ghost use Rattle.bsss_cli.specs.Solve.{solve, job_to};
ghost use Rattle.bsss_cli.specs.Begun.{IsBegun, IsJob, SaysInstance};
ghost use Rattle.bsss_cli.specs.Ports.{source_ghosts, sink_ghosts};
ghost use Rattle.bsss_cli.specs.Outcome.{Ended, Ran};

use crate::gap::gap_of;
use crate::output::{say, say_answer, say_bad_instance};
use crate::status::Status;
use candidate_sites::opening;
use command_line::{NoMemory, Settings};
use instance_text::{InstanceError, read_instance};
use pool_core::{Job, Pool};
use port_io::{ReadAll, Sink, Source, read_up_to};
use search_answer::{finish, finish_by_workers};
use site_model::{Instance, Site};
use site_workers::{Gate, alone, team};
use siting_definitions::INSTANCE_LIMIT;
use std::alloc::Global;
use std::sync::Wait;
use std::thread::Threads;

/// Reads an instance, and writes an answer of one worker to it.
pub(crate) fn run_solve<S: Source, K: Sink>(
    alloc: Global,
    settings: Settings,
    source: &mut S,
    sink: &mut K,
) -> Status
    requires settings { IsSettings settings }
    requires workers { settings.workers ≡ 1 }
    ensures { Ran (source_ghosts S.left S.faults S.is_strict)
        (sink_ghosts K.room K.taken K.faults K.is_strict)
        (solve settings) source.old source.new sink.old sink.new result }
{
    let (job, pool) = match begin_solve(alloc, settings, source, sink) {
        Err(status) => return status,
        Ok(begun) => begun,
    };
    let closed = alone(&job, pool);
    let (head, nodes) = finish(job, closed);
    say_answer(&head, &nodes, sink)
}

/// Reads an instance, and writes an answer of a team of workers to it.
pub(crate) fn run_solve_by_team<R: Threads + Wait + Sync, S: Source, K: Sink, G: Gate + Sync>(
    rt: &R,
    alloc: Global,
    settings: Settings,
    source: &mut S,
    sink: &mut K,
    gate: &G,
) -> Status
    requires { IsSettings settings }
    ensures { Ran (source_ghosts S.left S.faults S.is_strict)
        (sink_ghosts K.room K.taken K.faults K.is_strict)
        (solve settings) source.old source.new sink.old sink.new result }
{
    let (job, pool) = match begin_solve(alloc, settings, source, sink) {
        Err(status) => return status,
        Ok(begun) => begun,
    };
    match team(rt, alloc, &job, pool, settings.workers, gate) {
        Err(_) => Status::NoMemory,
        Ok(closed) => {
            let (head, nodes) = finish_by_workers(rt, job, closed, settings.workers);
            say_answer(&head, &nodes, sink)
        }
    }
}

/// Reads an instance, and takes all the memory of a solve by one worker. `Ok` has the job and its
/// pool, and nothing is written yet; `Err` has the status with which the run ended.
fn begin_solve<S: Source, K: Sink>(
    alloc: Global,
    settings: Settings,
    source: &mut S,
    sink: &mut K,
) -> Result<(Job, Pool), Status>
    requires { IsSettings settings }
    ensures { MatchResult result
        (λ begun. (sink.new ≡ sink.old) × IsBegun (source_ghosts S.left S.faults S.is_strict)
        settings source.old source.new begun.0 begun.1)
        (λ status. Ran (source_ghosts S.left S.faults S.is_strict)
        (sink_ghosts K.room K.taken K.faults K.is_strict)
        (solve settings) source.old source.new sink.old sink.new status) }
{
    match read_up_to(alloc, source, INSTANCE_LIMIT) {
        Ok(bytes) => begin_text(alloc, settings, bytes.as_slice(), sink),
        Err(ReadAll::TooLong) => Err(say(b"too long\n", Status::TooLong, sink)),
        Err(ReadAll::ReadFault) => Err(Status::ReadFault),
        Err(ReadAll::NoMemory) => Err(Status::NoMemory),
    }
}

/// The same of an instance text that was read.
fn begin_text<K: Sink>(
    alloc: Global,
    settings: Settings,
    bytes: &[u8],
    sink: &mut K,
) -> Result<(Job, Pool), Status>
    requires settings { IsSettings settings }
    requires short { length bytes.now ≤ INSTANCE_LIMIT }
    ensures { MatchResult result
        (λ begun. (sink.new ≡ sink.old) × ((i : Instances.Instance)
        × SaysInstance i bytes.now × IsJob settings i begun.0 begun.1))
        (λ status. Ended (sink_ghosts K.room K.taken K.faults K.is_strict)
        (solve settings) (Some bytes.now) sink.old sink.new status) }
{
    match read_instance(alloc, bytes) {
        Ok(instance) => match begin_job(alloc, settings, instance) {
            Ok(begun) => Ok(begun),
            Err(NoMemory) => Err(Status::NoMemory),
        },
        Err(InstanceError::Fault(fault)) => Err(say_bad_instance(fault, sink)),
        Err(InstanceError::NoMemory) => Err(Status::NoMemory),
    }
}

/// The job of solving an instance, and its pool.
pub(crate) fn begin_job(
    alloc: Global,
    settings: Settings,
    instance: Instance,
) -> Result<(Job, Pool), NoMemory>
    requires { IsSettings settings }
    ensures { IfOk result (λ begun. IsJob settings instance begun.0 begun.1) }
{
    let job = job_of(instance, settings);
    match Pool::begin(alloc, &job) {
        Ok(pool) => Ok((job, pool)),
        Err(_) => Err(NoMemory),
    }
}

/// The job of solving an instance, from its opening.
fn job_of(instance: Instance, settings: Settings) -> Job
    requires { IsSettings settings }
    ensures job { result ≡ job_to instance settings }
    ensures lawful { IsLawful result }
    ensures limits { IsInstance instance }
{
    // Shows that the instance is within the limits.
    let _points = instance.points();
    let start = opening(&instance);
    let gap = gap_of(settings.gap, copy_of(&start));
    Job::new(instance, gap, settings.budget, settings.pool, start)
}

/// A copy of an opening: one that holds a site isn't copied where it is used again.
fn copy_of(start: &Option<(Site, i64)>) -> Option<(Site, i64)>
    ensures { result ≡ start.now }
{
    *start
}
