//! The command `trial`.

ghost use Rattle.std.specs.Prelude.{◌≡◌, ◌≤◌, ◌+◌, ◌*◌, Option, Some, List, ℕ, IfOk, Ok, map, true};
ghost use Rattle.std.specs.Prelude.{is_some};
ghost use Rattle.port_io.specs.MemoryPorts.{sure_taken};
ghost use Rattle.siting_definitions.specs.declared.TheConstants.{NODE_LIMIT};
ghost use Rattle.siting_definitions.specs.Answer.{IsValid};
ghost use Rattle.siting_definitions.specs.AnswerText.{answer_text};
ghost use Rattle.siting_definitions.specs.Marks.{tally_of};
ghost use Rattle.discard_log.specs.Nodes.{mark_of};
ghost use Rattle.search_answer.specs.Ending.{answer_of};
ghost use Rattle.case_maker.specs.Made.{made};
ghost use Rattle.cert_checker.specs.Checking as checks;
ghost use Rattle.cert_checker.specs.Checking.{checking};
ghost use Rattle.command_line.specs.Command.{IsMaking, IsSettings};
ghost use Rattle.bsss_cli.specs.Ports.{sink_ghosts};
ghost use Rattle.bsss_cli.specs.Outcome.{Ended};
ghost use Rattle.bsss_cli.specs.Solve.{IsAnswerTo};
ghost use Rattle.bsss_cli.specs.Trial as trials;

use crate::commands::solve::begin_job;
use crate::output::{put_answer, say_summary};
use crate::status::Status;
use answer_model::Head;
use case_maker::make_instance;
use cert_checker::{Accepted, CheckError, check};
use command_line::{NoMemory, Settings};
use discard_log::NodeList;
use port_io::{Sink, SureSink, SureSource};
use search_answer::finish;
use site_model::Instance;
use site_workers::alone;
use std::alloc::Global;

/// The room for the text of an answer, in bytes, without its node lines.
const HEAD_ROOM: usize = 400_000;

/// The room for a node line, in bytes.
const NODE_ROOM: usize = 24;

/// Solves a made instance by one worker, checks the text of the answer in memory, and writes a
/// summary.
pub(crate) fn run_trial<K: Sink>(
    alloc: Global,
    seed: u32,
    points: u32,
    settings: Settings,
    sink: &mut K,
) -> Status
    requires making { IsMaking seed points }
    requires settings { IsSettings settings }
    requires workers { settings.workers ≡ 1 }
    ensures { (told : Option (List ℕ)) → Ended (sink_ghosts K.room K.taken K.faults K.is_strict)
        (trials.trial seed points settings) told sink.old sink.new result }
{
    let (head, nodes) = match solve_made(alloc, seed, points, settings) {
        Ok(answer) => answer,
        Err(NoMemory) => return Status::NoMemory,
    };
    match check_answer(alloc, &head, &nodes) {
        Ok(accepted) => say_summary(seed, points, &head, accepted.nodes, sink),
        Err(NoMemory) => Status::NoMemory,
    }
}

/// The answer of one worker to a made instance.
fn solve_made(
    alloc: Global,
    seed: u32,
    points: u32,
    settings: Settings,
) -> Result<(Head, NodeList), NoMemory>
    requires making { IsMaking seed points }
    requires settings { IsSettings settings }
    requires workers { settings.workers ≡ 1 }
    ensures { IfOk result (λ answer. IsAnswerTo (made seed points) settings answer.0.word
        (answer_of answer.0 answer.1)) }
{
    match make_instance(alloc, seed, points) {
        Ok(instance) => solve_instance(alloc, settings, instance),
        Err(_) => Err(NoMemory),
    }
}

/// The answer of one worker to an instance.
fn solve_instance(
    alloc: Global,
    settings: Settings,
    instance: Instance,
) -> Result<(Head, NodeList), NoMemory>
    requires settings { IsSettings settings }
    requires workers { settings.workers ≡ 1 }
    ensures { IfOk result (λ answer. IsAnswerTo instance settings answer.0.word
        (answer_of answer.0 answer.1)) }
{
    let (job, pool) = match begin_job(alloc, settings, instance) {
        Ok(begun) => begun,
        Err(NoMemory) => return Err(NoMemory),
    };
    let closed = alone(&job, pool);
    Ok(finish(job, closed))
}

/// Checks the text of a valid answer, in memory: it is accepted.
fn check_answer(alloc: Global, head: &Head, nodes: &NodeList) -> Result<Accepted, NoMemory>
    requires { IsValid (answer_of head.now nodes.now) }
    ensures { IfOk result (λ accepted. accepted
        ≡ checks.accepted_of head.now (tally_of (map mark_of nodes.now))) }
{
    match text_in_memory(alloc, head, nodes) {
        Ok(bytes) => check_accepted(alloc, head, nodes, bytes),
        Err(NoMemory) => Err(NoMemory),
    }
}

/// The text of a valid answer, in memory: it fits the room.
fn text_in_memory(alloc: Global, head: &Head, nodes: &NodeList) -> Result<Vec<u8>, NoMemory>
    requires { IsValid (answer_of head.now nodes.now) }
    ensures { IfOk result (λ bytes. bytes.items ≡ answer_text (answer_of head.now nodes.now)) }
{
    let room = room_for(nodes.nodes().len());
    let Ok(mut sink) = SureSink::with_room(alloc, room) else {
        return Err(NoMemory);
    };
    match put_answer(head, nodes, &mut sink) {
        Ok(()) => taken_by(alloc, &sink),
        Err(_) => unreachable!(),
    }
}

/// The room for the text of an answer of so many nodes, in bytes.
fn room_for(nodes: usize) -> usize
    requires { nodes ≤ NODE_LIMIT }
    ensures { result ≡ 400000 + 24 * nodes }
{
    HEAD_ROOM + NODE_ROOM * nodes
}

/// A copy of the bytes that a sink took, which all fit its room.
fn taken_by(alloc: Global, sink: &SureSink) -> Result<Vec<u8>, NoMemory>
    requires { is_some (sure_taken sink.now) ≡ true }
    ensures { IfOk result (λ bytes. sure_taken sink.now ≡ Some bytes.items) }
{
    match sink.bytes() {
        Some(bytes) => match Vec::from_slice(alloc, bytes) {
            Ok(text) => Ok(text),
            Err(_) => Err(NoMemory),
        },
        None => unreachable!(),
    }
}

/// Checks bytes that are the text of a valid answer.
fn check_accepted(
    alloc: Global,
    head: &Head,
    nodes: &NodeList,
    bytes: Vec<u8>,
) -> Result<Accepted, NoMemory>
    requires { checking bytes.items
        ≡ Ok (checks.accepted_of head.now (tally_of (map mark_of nodes.now))) }
    ensures { IfOk result (λ accepted. accepted
        ≡ checks.accepted_of head.now (tally_of (map mark_of nodes.now))) }
{
    let mut source = SureSource::new(bytes);
    match check(alloc, &mut source) {
        Ok(accepted) => Ok(accepted),
        Err(error) => Err(lack_of_memory(error)),
    }
}

/// The one error of a check of an accepted text over a source that never fails.
fn lack_of_memory(error: CheckError) -> NoMemory
    requires { error ≡ CheckError.NoMemory }
{
    match error {
        CheckError::NoMemory => NoMemory,
        CheckError::Fault(_) => unreachable!(),
        CheckError::TooLong => unreachable!(),
        CheckError::ReadFault => unreachable!(),
    }
}
