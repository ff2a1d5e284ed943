//! The pool, from its beginning to the nodes that it ends with.

ghost use Rattle.std.specs.Prelude.{◌≡◌, ◌+◌, ◌<◌, ◌≤◌, ◌++◌, [], map, filter, true};
ghost use Rattle.std.specs.Prelude.{length, drop, slice_index_or, vec_capacity};
ghost use Rattle.std.specs.Prelude.{All, IfOk, IsPermutation};
ghost use Rattle.siting_definitions.specs.Tree.{Tree, Fits, preorder};
ghost use Rattle.discard_log.specs.Nodes.{tree_square};
ghost use Rattle.pool_core.specs.Job.{job_root};
ghost use Rattle.pool_core.specs.State as states;
ghost use Rattle.pool_core.specs.State.{first_state, squares_of};
ghost use Rattle.pool_core.specs.Begun.{IsBegunFrom, IsResumable, closed_nodes};
ghost use Rattle.pool_core.specs.Begun.{is_left_open, left_count, left_of};
ghost use Rattle.pool_core.specs.Logged.{bound_for, bounded_node, with_bounds_from};
ghost use Rattle.discard_log.specs.declared.node.Node as nodes_of;
ghost use Rattle.bound_heap.specs.declared.entry.Entry as entries;

use crate::job::Job;
use crate::stop::Stop;
use bound_heap::{Entry, Heap};
use discard_log::{Log, Mark, Node, NodeList};
use dyadic_square::Square;
use objectives::coarse;
use std::alloc::{AllocError, Global};
use std::marker::Model;

/// Memory ran out for a pool.
#[derive(Clone, Copy, Debug, PartialEq, Eq)]
pub struct NoMemory;

impl From<AllocError> for NoMemory {
    fn from(_: AllocError) -> NoMemory {
        NoMemory
    }
}

impl From<bound_heap::NoMemory> for NoMemory {
    fn from(_: bound_heap::NoMemory) -> NoMemory {
        NoMemory
    }
}

impl From<discard_log::NoMemory> for NoMemory {
    fn from(_: discard_log::NoMemory) -> NoMemory {
        NoMemory
    }
}

/// The squares of a search: those that wait, those that are leased, and what became of the others.
/// All its memory is taken at the beginning.
#[derive(Drop)]
pub struct Pool {
    pub(crate) job: Job,
    pub(crate) waiting: Heap,
    pub(crate) leased: Vec<Entry>,
    pub(crate) log: Log,
    /// The fine bounds of the squares that the gap settled since the beginning, in the order of the
    /// log.
    pub(crate) fine_bounds: Vec<i64>,
    pub(crate) leases: u32,
    pub(crate) kept: u32,
    pub(crate) stop: Option<Stop>,
    /// How many nodes the pool was made with. They come first in the log.
    pub(crate) begun_nodes: usize,
    /// How many raised squares waited when the pool was made.
    pub(crate) begun_raised: u32,
    /// How many leases had been given when the pool was made.
    pub(crate) begun_leases: u32,
}

impl Model for Pool {
    ghost use Rattle.pool_core.specs.State.{State};

    ghost Value = { State };

    ghost use Rattle.pool_core.specs.Pool.{state_of, PoolFits};

    ghost view = { state_of };

    ghost invariant = { PoolFits };
}

impl Pool {
    /// The pool in which the root of the job waits with its coarse bound. It takes room for as many
    /// entries as may be open, and for as many leases as may be given for the nodes of a split and
    /// for a bound each; `NoMemory` where memory ran out.
    pub fn begin(alloc: Global, job: &Job) -> Result<Pool, NoMemory>
        ensures { IfOk result (λ pool. pool ≡ first_state job.now) }
    {
        let root = job.root;
        let bound = coarse(&job.instance, root);
        let mut waiting = Heap::with_room(alloc, job.pool as usize)?;
        let leased = room_for(alloc, job.pool)?;
        let log = Log::with_room(alloc, 4 * job.budget as usize + 1)?;
        let fine_bounds = room_for(alloc, job.budget)?;
        let job = job.clone()?;
        waiting.push(Entry {
            square: root,
            bound,
            raised: false,
        });
        Ok(Pool {
            job,
            waiting,
            leased,
            log,
            fine_bounds,
            leases: 0,
            kept: 0,
            stop: None,
            begun_nodes: 0,
            begun_raised: 0,
            begun_leases: 0,
        })
    }

    /// The pool in which the squares of a finished tree that were left open wait, after this many
    /// leases. The nodes are in preorder, with the finished marks for the start's cost. It takes
    /// room as `begin` does; `NoMemory` where memory ran out.
    pub fn begin_from(
        alloc: Global,
        job: &Job,
        nodes: &NodeList,
        leases: u32,
    ) -> Result<Pool, NoMemory>
        requires { IsResumable job.now nodes.now leases }
        ensures { IfOk result (IsBegunFrom job.now nodes.now leases) }
    {
        let nodes = nodes.nodes();
        let count = nodes.len();
        let mut waiting = Heap::with_room(alloc, job.pool as usize)?;
        let leased = room_for(alloc, job.pool)?;
        let mut log = Log::with_room(alloc, count + 4 * (job.budget - leases) as usize)?;
        let fine_bounds = room_for(alloc, job.budget - leases)?;
        let job = job.clone()?;
        sort_out(nodes, &mut waiting, &mut log);
        let open = waiting.len();
        Ok(Pool {
            job,
            waiting,
            leased,
            log,
            fine_bounds,
            leases,
            kept: 0,
            stop: None,
            begun_nodes: count - open,
            begun_raised: open as u32,
            begun_leases: leases,
        })
    }

    /// Why nothing more is leased, if there is a stop.
    pub fn stop(&self) -> Option<Stop>
        ensures { result ≡ self.now.stop }
    {
        self.stop
    }

    /// How many leases were given, at most the budget of the job.
    pub fn leases(&self) -> u32
        ensures { result ≡ self.now.leases }
    {
        self.leases
    }

    /// How many squares wait or are leased, at most the pool of the job.
    pub fn open_count(&self) -> u32
        ensures { result ≡ states.open_count self.now }
    {
        (self.waiting.len() + self.leased.len()) as u32
    }

    /// The nodes, and each waiting square left open with its bound. Where they are the squares of
    /// one tree, they come in its preorder.
    pub fn into_nodes(self) -> NodeList
        requires { self.leased ≡ [] }
        ensures nodes { IsPermutation (self.nodes ++ map left_of self.waiting) result }
        ensures preorder { (t : Tree) → Fits t (job_root self.job).level
            → IsPermutation (squares_of self) (preorder t (job_root self.job))
            → map tree_square result ≡ preorder t (job_root self.job) }
    {
        let root = root_of(&self.job);
        listed(root, self.waiting, self.log)
    }

    /// The nodes as `into_nodes` gives them, but each that the gap settled with the fine bound of
    /// its square.
    pub fn into_bounded_nodes(self) -> NodeList
        requires { self.leased ≡ [] }
        ensures nodes { IsPermutation
            (map (bounded_node self.job.instance) self.nodes ++ map left_of self.waiting)
            result }
        ensures preorder { (t : Tree) → Fits t (job_root self.job).level
            → IsPermutation (squares_of self) (preorder t (job_root self.job))
            → map tree_square result ≡ preorder t (job_root self.job) }
    {
        let root = root_of(&self.job);
        let mut log = self.log;
        put_in_bounds(&mut log, self.begun_nodes, self.fine_bounds.as_slice());
        listed(root, self.waiting, log)
    }
}

/// The starting square of a job.
fn root_of(job: &Job) -> Square
    ensures { result ≡ job_root job.now }
{
    job.root
}

/// An empty list with room for so many elements.
fn room_for<T>(alloc: Global, room: u32) -> Result<Vec<T>, NoMemory>
    ensures { IfOk result (λ list. (list.items ≡ []) × (vec_capacity list ≡ room)) }
{
    match Vec::with_capacity(alloc, room as usize) {
        Ok(list) => Ok(list),
        Err(_) => Err(NoMemory),
    }
}

/// Lets the squares left open wait, raised, with their bounds, and logs the other nodes in order.
fn sort_out(nodes: &[Node], waiting: &mut Heap, log: &mut Log)
    requires waiting { left_count nodes.now ≤ waiting.old.spare }
    requires log { length (closed_nodes nodes.now) ≤ log.old.spare }
    requires nothing_waits { waiting.old.entries ≡ [] }
    requires nothing_logged { log.old.nodes ≡ [] }
    ensures waiting { IsPermutation (filter is_left_open nodes.now)
        (map left_of waiting.new.entries) }
    ensures raised { All (λ (e : entries.Entry). e.raised ≡ true) waiting.new.entries }
    ensures waiting_room { length waiting.new.entries + waiting.new.spare ≡ waiting.old.spare }
    ensures nodes { log.new.nodes ≡ closed_nodes nodes.now }
    ensures log_room { length log.new.nodes + log.new.spare ≡ log.old.spare }
{
    for node in nodes {
        match node.mark {
            Mark::Left(bound) => waiting.push(Entry {
                square: node.square,
                bound,
                raised: true,
            }),
            _ => log.push(*node),
        }
    }
}

/// The nodes of a log, and each waiting square left open with its bound. Where they are the squares
/// of one tree of `root`, they come in its preorder.
fn listed(root: Square, waiting: Heap, log: Log) -> NodeList
    requires { length waiting.entries ≤ log.spare }
    ensures nodes { IsPermutation (log.nodes ++ map left_of waiting.entries) result }
    ensures preorder { (t : Tree) → Fits t root.level
        → IsPermutation (map tree_square (log.nodes ++ map left_of waiting.entries)) (preorder t root)
        → map tree_square result ≡ preorder t root }
{
    let mut log = log;
    log_waiting(waiting, &mut log);
    log.in_preorder(root)
}

/// Logs each entry that waits as left open with its bound.
fn log_waiting(mut waiting: Heap, log: &mut Log)
    requires { length waiting.entries ≤ log.old.spare }
    ensures { IsPermutation (log.old.nodes ++ map left_of waiting.entries) log.new.nodes }
{
    while let Some(entry) = waiting.pop() {
        log.push(Node {
            square: entry.square,
            mark: Mark::Left(entry.bound),
        });
    }
}

/// Gives the nodes that the gap settled these fine bounds, in cost units and in the order of the
/// log, from the node at index `from` on.
fn put_in_bounds(log: &mut Log, from: usize, fine_bounds: &[i64])
    requires { from ≤ length log.old.nodes }
    ensures nodes { log.new.nodes ≡ with_bounds_from from log.old.nodes fine_bounds.now }
    ensures spare { log.new.spare ≡ log.old.spare }
{
    let mut next = 0;
    for i in from..log.nodes().len() {
        if let Some(bound) = bound_of(log, i, fine_bounds, next) {
            log.remark(i, Mark::Bounded(bound));
            next += 1;
        }
    }
}

/// The bound at index `next`, in cost units, where the gap settled the node at index `i`.
fn bound_of(log: &Log, i: usize, fine_bounds: &[i64], next: usize) -> Option<i64>
    requires { i < length log.now.nodes }
    ensures { (n : nodes_of.Node) → result
        ≡ bound_for (slice_index_or log.now.nodes i n).mark (drop next fine_bounds.now) }
{
    match log.nodes()[i].mark {
        Mark::Bounded(_) => fine_bounds.get(next).copied(),
        _ => None,
    }
}
