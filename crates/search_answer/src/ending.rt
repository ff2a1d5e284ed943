//! The answer that a search ends with.

ghost use Rattle.std.specs.Prelude.{◌≡◌, ℕ, ◌<◌, ◌≤◌, ◌^◌, map, length, is_some, All};
ghost use Rattle.std.specs.Prelude.{slice_set, slice_index_or};
ghost use Rattle.siting_definitions.specs.Answer.{IsHead, IsMark, IsWorkedBy};
ghost use Rattle.siting_definitions.specs.Marks as marks;
ghost use Rattle.discard_log.specs.declared.node.Node as nodes_of;
ghost use Rattle.discard_log.specs.Nodes.{mark_of};
ghost use Rattle.pool_core.specs.Seats.{IsKeptBy};
ghost use Rattle.pool_core.specs.Sound.{IsFinished};
ghost use Rattle.answer_model.specs.Head.{best_of};
ghost use Rattle.search_answer.specs.Ending.{Finishes, IsKnownMark, IsKnownNode, answer_of};
ghost use Rattle.search_answer.specs.Ending.{best_by, finished_node, head_by};
ghost use Rattle.search_answer.specs.Ending as endings;
ghost use Rattle.siting_definitions.specs.declared.TheConstants.{BUDGET_LIMIT, POOL_LIMIT};

use answer_model::{Head, Tally, Word, is_split, leaf_mark, mark_by_bound};
use discard_log::{Mark, NodeList};
use dyadic_square::Square;
use objectives::cost_of;
use pool_core::{Closed, Job, Stop, cost_in};
use site_model::{Instance, Site};

/// The answer of a search that ended: each leaf gets its finished mark, the bound is the least of
/// these, and the word is the one that they call for.
pub fn finish(job: Job, closed: Closed) -> (Head, NodeList)
    requires { IsFinished job closed.pool closed.best }
    ensures answer { Finishes job closed.pool closed.best result.0 result.1 }
    ensures worked { (workers : ℕ)
        → IsKeptBy closed.pool workers → IsWorkedBy (answer_of result.0 result.1) workers }
{
    let Closed { pool, best } = closed;
    let stop = pool.stop();
    let leases = pool.leases();
    let mut nodes = pool.into_bounded_nodes();
    let tally = finish_marks(&job, cost_in(&best), &mut nodes);
    let head = head_of(job, &best, &tally, stop, leases);
    (head, nodes)
}

/// Gives each leaf its finished mark, for the least upper cost, and counts the marks.
fn finish_marks(job: &Job, least: Option<i64>, nodes: &mut NodeList) -> Tally
    requires few { length nodes.old < 2 ^ 40 }
    requires known { All (IsKnownNode job.now.instance) nodes.old }
    ensures nodes { nodes.new ≡ map (finished_node job.now least) nodes.old }
    ensures ranges { All IsMark (map mark_of nodes.new) }
    ensures tally { result ≡ marks.tally_of (map mark_of nodes.new) }
{
    let mut tally = Tally::new();
    for i in 0..nodes.nodes().len() {
        let mark = finish_node(job, least, nodes, i);
        tally.add(mark);
    }
    tally
}

/// Gives the node at index `i` its finished mark, for the least upper cost.
fn finish_node(job: &Job, least: Option<i64>, nodes: &mut NodeList, i: usize) -> Mark
    requires index { i < length nodes.old }
    requires known { (d : nodes_of.Node)
        → IsKnownNode job.now.instance (slice_index_or nodes.old i d) }
    ensures nodes { (d : nodes_of.Node)
        → nodes.new
        ≡ slice_set nodes.old i
        (finished_node job.now least (slice_index_or nodes.old i d)) }
    ensures mark { (d : nodes_of.Node)
        → result ≡ endings.finished_mark job.now least (slice_index_or nodes.old i d) }
    ensures range { IsMark result }
{
    let node = nodes.nodes()[i];
    if is_split(node.mark) {
        return node.mark;
    }
    let mark = finished_mark(job, least, node.square, node.mark);
    nodes.remark(i, mark);
    mark
}

/// The finished mark of a square with this mark, for the least upper cost. Its bound is taken only
/// where it was left open.
pub(crate) fn finished_mark(job: &Job, least: Option<i64>, square: Square, mark: Mark) -> Mark
    requires { IsKnownMark job.now.instance square mark }
    ensures value { result
        ≡ endings.finished_mark job.now least (record { square = square; mark = mark }) }
    ensures split { marks.is_split result ≡ marks.is_split mark }
    ensures range { IsMark result }
{
    match mark {
        Mark::Split(_) => mark,
        Mark::Shut => mark,
        Mark::Bounded(bound) => mark_by_bound(job.gap, least, square.level, bound),
        Mark::Floor(bound) => mark_by_bound(job.gap, least, square.level, bound),
        Mark::Left(_) => leaf_mark(&job.instance, job.gap, least, square),
    }
}

/// The head of the answer to a job, by the best site, the tally of the marks, the stop and the
/// number of leases.
pub(crate) fn head_of(
    job: Job,
    best: &Option<(Site, i64)>,
    tally: &Tally,
    stop: Option<Stop>,
    leases: u32,
) -> Head
    requires leases { leases ≤ BUDGET_LIMIT }
    requires open_count { endings.open_for (endings.ending_word tally.now stop) stop ≤ POOL_LIMIT }
    ensures value { result ≡ head_by job best.now tally.now stop leases }
    ensures range { IsHead result }
{
    let (site, cost) = site_with_costs(&job.instance, best);
    let word = word_of(tally, stop);
    Head {
        instance: job.instance,
        gap: job.gap,
        budget: job.budget,
        pool: job.pool,
        site,
        cost,
        bound: tally.least,
        word,
        open_count: open_for(word, stop),
        leases,
    }
}

/// The best site, and its lower and its upper cost, in cost units.
fn site_with_costs(
    instance: &Instance,
    best: &Option<(Site, i64)>,
) -> (Option<Site>, Option<(i64, i64)>)
    ensures best { best_of result.0 result.1 ≡ best_by instance.now best.now }
    ensures there { is_some result.1 ≡ is_some result.0 }
{
    match *best {
        None => (None, None),
        Some((site, _)) => (Some(site), Some(cost_of(instance, site))),
    }
}

/// The word of an answer, by the tally of its marks and by the stop.
fn word_of(tally: &Tally, stop: Option<Stop>) -> Word
    ensures { result ≡ endings.ending_word tally.now stop }
{
    if tally.least.is_none() {
        return Word::Empty;
    }
    if tally.open_leaves > 0 {
        return stop_word(stop);
    }
    if tally.floor_leaves > 0 {
        Word::Floor
    } else {
        Word::Solved
    }
}

/// The word of a stop. Without one no leaf is left open, and the word isn't asked for.
fn stop_word(stop: Option<Stop>) -> Word
    ensures { result ≡ endings.stop_word stop }
{
    match stop {
        Some(Stop::PoolFull { count: _ }) => Word::PoolFull,
        Some(Stop::Budget { leases: _ }) | None => Word::Budget,
    }
}

/// How many squares were open at the stop, where the word says that the pool was full, and else 0.
fn open_for(word: Word, stop: Option<Stop>) -> u32
    ensures { result ≡ endings.open_for word stop }
{
    match (word, stop) {
        (Word::PoolFull, Some(Stop::PoolFull { count })) => count,
        _ => 0,
    }
}
