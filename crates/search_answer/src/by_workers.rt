//! The answer that a search ends with, where several workers mark its leaves.

ghost use Rattle.std.specs.Prelude.{◌≡◌, ℕ, ◌<◌, ◌≤◌, ◌^◌, map, length, All};
ghost use Rattle.siting_definitions.specs.Answer.{IsMark, IsWorkedBy};
ghost use Rattle.siting_definitions.specs.Marks as marks;
ghost use Rattle.discard_log.specs.Nodes.{mark_of};
ghost use Rattle.pool_core.specs.Seats.{IsKeptBy};
ghost use Rattle.pool_core.specs.Sound.{IsFinished};
ghost use Rattle.search_answer.specs.Ending.{Finishes, IsKnownNode, answer_of, finished_node};

use crate::ending::{finished_mark, head_of};
use answer_model::{Head, Tally, is_split};
use discard_log::{Node, NodeList};
use pool_core::{Closed, Job, cost_in};
use std::thread;
use std::thread::Threads;

/// In so many rounds, at the most, the nodes are marked: within each the workers have parts of one
/// length, so that none has all the squares that take long.
const ROUNDS: usize = 16;

/// A round has at least so many nodes, unless it is the only one.
const LEAST_ROUND: usize = 1024;

/// The answer that `finish` gives, where so many workers mark the leaves: the fine bound of each
/// square that was left open takes most of the time. They work in rounds, no more of them at once
/// than were asked for. It takes no memory. Where no thread can be made the parts are marked one
/// after another.
pub fn finish_by_workers<R: Threads + Sync>(
    rt: &R,
    job: Job,
    closed: Closed,
    workers: u32,
) -> (Head, NodeList)
    requires finished { IsFinished job closed.pool closed.best }
    requires least { 1 ≤ workers }
    requires most { workers ≤ 64 }
    ensures answer { Finishes job closed.pool closed.best result.0 result.1 }
    ensures worked { (workers : ℕ)
        → IsKeptBy closed.pool workers → IsWorkedBy (answer_of result.0 result.1) workers }
{
    let Closed { pool, best } = closed;
    let stop = pool.stop();
    let leases = pool.leases();
    let nodes = mark_nodes(
        rt,
        &job,
        cost_in(&best),
        workers as usize,
        pool.into_bounded_nodes(),
    );
    let tally = tally_of(nodes.nodes());
    let head = head_of(job, &best, &tally, stop, leases);
    (head, nodes)
}

/// The nodes with the finished mark of each leaf, for the least upper cost, made by so many workers.
fn mark_nodes<R: Threads + Sync>(
    rt: &R,
    job: &Job,
    least: Option<i64>,
    workers: usize,
    nodes: NodeList,
) -> NodeList
    requires workers { 0 < workers }
    requires known { All (IsKnownNode job.now.instance) nodes }
    ensures { result ≡ map (finished_node job.now least) nodes }
{
    let mut nodes = nodes.into_vec();
    let round = (nodes.len() / ROUNDS).max(LEAST_ROUND);
    mark_rounds(rt, job, least, workers, round, nodes.as_mut_slice());
    NodeList::from_vec(nodes)
}

/// Gives each leaf its finished mark, for the least upper cost, by so many workers, in rounds of at
/// most so many nodes.
fn mark_rounds<R: Threads + Sync>(
    rt: &R,
    job: &Job,
    least: Option<i64>,
    workers: usize,
    round: usize,
    nodes: &mut [Node],
)
    requires workers { 0 < workers }
    requires round { 0 < round }
    requires known { All (IsKnownNode job.now.instance) nodes.old }
    ensures { nodes.new ≡ map (finished_node job.now least) nodes.old }
{
    if nodes.len() <= round {
        mark_round(rt, job, least, workers, nodes);
        return;
    }
    let (first, rest) = nodes.split_at_mut(nodes.len() / 2);
    mark_rounds(rt, job, least, workers, round, first);
    mark_rounds(rt, job, least, workers, round, rest);
}

/// Gives each leaf its finished mark, for the least upper cost, by so many workers at the same time.
fn mark_round<R: Threads + Sync>(
    rt: &R,
    job: &Job,
    least: Option<i64>,
    workers: usize,
    nodes: &mut [Node],
)
    requires workers { 0 < workers }
    requires known { All (IsKnownNode job.now.instance) nodes.old }
    ensures { nodes.new ≡ map (finished_node job.now least) nodes.old }
{
    let mark = |_: usize, node: &mut Node|
        requires { IsKnownNode job.now.instance node.now }
        ensures { node.exit.now ≡ finished_node job.entry.now least node.entry.now }
    { mark_node(job, least, node) };
    thread::for_each_mut(rt, nodes, workers, &mark);
}

/// Gives a node its finished mark, for the least upper cost.
fn mark_node(job: &Job, least: Option<i64>, node: &mut Node)
    requires { IsKnownNode job.now.instance node.old }
    ensures { node.new ≡ finished_node job.now least node.old }
{
    node.mark = finished_mark(job, least, node.square, node.mark);
}

/// The tally of the marks of nodes.
fn tally_of(nodes: &[Node]) -> Tally
    requires few { length nodes.now < 2 ^ 40 }
    ensures ranges { All IsMark (map mark_of nodes.now) }
    ensures tally { result ≡ marks.tally_of (map mark_of nodes.now) }
{
    let mut tally = Tally::new();
    for node in nodes {
        // Shows that the mark's number is in its range.
        let _is_split = is_split(node.mark);
        tally.add(node.mark);
    }
    tally
}
