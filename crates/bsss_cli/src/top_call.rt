//! The top call.

ghost use Rattle.std.specs.Prelude.{◌≡◌, true, false, IfSome};
ghost use Rattle.command_line.specs.Command.{IsCommand, has_team};
ghost use Rattle.command_line.specs.Words.{command_of};
ghost use Rattle.bsss_cli.specs.Ports.{source_ghosts, sink_ghosts};
ghost use Rattle.bsss_cli.specs.Outcome.{Completes, Ran};
ghost use Rattle.bsss_cli.specs.Commands.{promise_of};

use crate::commands::check::{run_check, run_check_by_team};
use crate::commands::make::run_make;
use crate::commands::near::run_near;
use crate::commands::polish::run_polish;
use crate::commands::resume::{run_resume, run_resume_by_team};
use crate::commands::solve::{run_solve, run_solve_by_team};
use crate::commands::trial::run_trial;
use crate::output::say;
use crate::status::Status;
use command_line::{Argv, Command, has_team, parse_words};
use port_io::{Sink, Source};
use site_workers::Gate;
use std::alloc::Global;
use std::sync::Wait;
use std::thread::Threads;

/// Runs the command that the words are: reads from the source what the command reads, and writes
/// its text to the sink.
///
/// Several workers run on threads of `rt`, wait for one another, and pass the gate. So a return is
/// promised for no words: `run_alone` promises it, and is called for all words that want no team.
pub fn run<R: Threads + Wait + Sync, S: Source, K: Sink, G: Gate + Sync>(
    rt: &R,
    alloc: Global,
    words: &Argv,
    source: &mut S,
    sink: &mut K,
    gate: &G,
) -> Status
    // What it read and wrote, and the cause of each status.
    ensures ran { Ran (source_ghosts S.left S.faults S.is_strict)
        (sink_ghosts K.room K.taken K.faults K.is_strict) (promise_of (command_of words.now))
        source.old source.new sink.old sink.new result }

    // What comes where the source and the sink have no fault and there is memory.
    ensures complete { Completes (promise_of (command_of words.now)) (S.left source.old) result }
{
    let command = parse_words(words);
    if has_team(command) {
        run_by_team(rt, alloc, command, source, sink, gate)
    } else {
        run_command(alloc, command, source, sink)
    }
}

/// Runs the command that the words are, for one worker, with the clauses of `run`. It waits for
/// nobody and always returns.
pub fn run_alone<S: Source, K: Sink>(
    alloc: Global,
    words: &Argv,
    source: &mut S,
    sink: &mut K,
) -> Status
    requires { has_team (command_of words.now) ≡ false }
    ensures ran { Ran (source_ghosts S.left S.faults S.is_strict)
        (sink_ghosts K.room K.taken K.faults K.is_strict) (promise_of (command_of words.now))
        source.old source.new sink.old sink.new result }
    ensures complete { Completes (promise_of (command_of words.now)) (S.left source.old) result }
{
    run_command(alloc, parse_words(words), source, sink)
}

/// Runs a command of several workers.
fn run_by_team<R: Threads + Wait + Sync, S: Source, K: Sink, G: Gate + Sync>(
    rt: &R,
    alloc: Global,
    command: Option<Command>,
    source: &mut S,
    sink: &mut K,
    gate: &G,
) -> Status
    requires command { IfSome command IsCommand }
    requires team { has_team command ≡ true }
    ensures { Ran (source_ghosts S.left S.faults S.is_strict)
        (sink_ghosts K.room K.taken K.faults K.is_strict)
        (promise_of command) source.old source.new sink.old sink.new result }
{
    match command {
        Some(Command::Solve(settings)) => {
            run_solve_by_team(rt, alloc, settings, source, sink, gate)
        }
        Some(Command::Check { workers }) => run_check_by_team(rt, alloc, workers, source, sink),
        Some(
            Command::Resume {
                budget,
                pool,
                workers,
            },
        ) => run_resume_by_team(rt, alloc, budget, pool, workers, source, sink, gate),
        _ => unreachable!(),
    }
}

/// Runs a command of one worker, or refuses the words that are none.
fn run_command<S: Source, K: Sink>(
    alloc: Global,
    command: Option<Command>,
    source: &mut S,
    sink: &mut K,
) -> Status
    requires command { IfSome command IsCommand }
    requires alone { has_team command ≡ false }
    ensures { Ran (source_ghosts S.left S.faults S.is_strict)
        (sink_ghosts K.room K.taken K.faults K.is_strict)
        (promise_of command) source.old source.new sink.old sink.new result }
{
    match command {
        None => say(b"bad words\n", Status::Usage, sink),
        Some(Command::Solve(settings)) => { run_solve(alloc, settings, source, sink) }
        Some(Command::Check { .. }) => run_check(alloc, source, sink),
        Some(Command::Resume { budget, pool, .. }) => run_resume(alloc, budget, pool, source, sink),
        Some(Command::Polish) => run_polish(alloc, source, sink),
        Some(
            Command::Near {
                slack,
                depth,
                limit,
            },
        ) => run_near(alloc, slack, depth, limit, source, sink),
        Some(Command::Make { seed, points }) => run_make(alloc, seed, points, sink),
        Some(
            Command::Trial {
                seed,
                points,
                settings,
            },
        ) => run_trial(alloc, seed, points, settings, sink),
    }
}
