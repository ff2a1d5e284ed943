//! Reopening an answer for a search that goes on from it.

ghost use Rattle.std.specs.Prelude.{◌≡◌, ◌^◌, ◌<◌, ◌≤◌, map, length, option_map, IfOk};
ghost use Rattle.siting_definitions.specs.declared.TheConstants.{NODE_LIMIT};
ghost use Rattle.siting_definitions.specs.Answer.{HeadFits};
ghost use Rattle.siting_definitions.specs.Marks as marks;
ghost use Rattle.discard_log.specs.Nodes.{mark_of};
ghost use Rattle.pool_core.specs.Begun.{left_count};
ghost use Rattle.pool_core.specs.Sound.{IsPoolOf};
ghost use Rattle.pool_core.specs.State.{split_count};
ghost use Rattle.search_answer.specs.Ending.{offer_of};
ghost use Rattle.resume_job.specs.Loading.{AreOfValid};
ghost use Rattle.resume_job.specs.Reopening as reopened;
ghost use Rattle.resume_job.specs.Reopening.{ReopensTo};
ghost use Rattle.siting_definitions.specs.declared.TheConstants.{BUDGET_LIMIT, POOL_LIMIT};

use answer_model::{Head, Tally};
use discard_log::{Node, NodeList};
use pool_core::{Job, Pool};
use site_model::Site;
use std::alloc::Global;

/// Why a search doesn't go on from an answer.
#[derive(Clone, Copy, Debug, PartialEq, Eq)]
pub enum ReopenError {
    /// The budget is below the leases that the answer's splits took.
    SmallBudget {
        /// The budget.
        has: u32,
        /// How many squares are split.
        wants: u32,
    },
    /// The pool has no room for the squares that the answer leaves open.
    SmallPool {
        /// How many squares may be open.
        has: u32,
        /// How many squares are left open.
        wants: u32,
    },
    /// No memory was left.
    NoMemory,
}

/// The job that goes on from a valid answer, and the pool that it begins with. The job has the
/// answer's instance and gap, starts from its site, and has this budget, at most 1,000,000, and
/// this pool, 1 to 1,000,000. The squares that were left open wait, after as many leases as there
/// are splits: the budget counts from these.
pub fn reopen(
    alloc: Global,
    head: Head,
    nodes: &NodeList,
    budget: u32,
    pool: u32,
) -> Result<(Job, Pool), ReopenError>
    requires answer { AreOfValid head nodes.now }
    requires budget { budget ≤ BUDGET_LIMIT }
    requires pool_least { 1 ≤ pool }
    requires pool_most { pool ≤ POOL_LIMIT }
    ensures opened { ReopensTo head nodes.now budget pool result }
    ensures sound { IfOk result (λ opened. IsPoolOf opened.0 opened.1) }
{
    let (splits, open) = counts_of(nodes.nodes());
    if budget < splits {
        return Err(ReopenError::SmallBudget {
            has: budget,
            wants: splits,
        });
    }
    if pool < open {
        return Err(ReopenError::SmallPool {
            has: pool,
            wants: open,
        });
    }
    let job = job_from(head, budget, pool);
    match Pool::begin_from(alloc, &job, nodes, splits) {
        Ok(pool) => Ok((job, pool)),
        Err(_) => Err(ReopenError::NoMemory),
    }
}

/// How many of the nodes are split, and how many are left open.
fn counts_of(nodes: &[Node]) -> (u32, u32)
    requires { length nodes.now ≤ NODE_LIMIT }
    ensures splits { result.0 ≡ split_count nodes.now }
    ensures open { result.1 ≡ left_count nodes.now }
{
    let tally = tally_nodes(nodes);
    (tally.splits as u32, tally.open_leaves as u32)
}

/// What is counted of the nodes' marks.
fn tally_nodes(nodes: &[Node]) -> Tally
    requires { length nodes.now < 2 ^ 40 }
    ensures { result ≡ marks.tally_of (map mark_of nodes.now) }
{
    let mut tally = Tally::new();
    for node in nodes {
        tally.add(node.mark);
    }
    tally
}

/// The job with the answer's instance and gap, which starts from its site with the upper cost.
fn job_from(head: Head, budget: u32, pool: u32) -> Job
    requires budget { budget ≤ BUDGET_LIMIT }
    requires pool_least { 1 ≤ pool }
    requires pool_most { pool ≤ POOL_LIMIT }
    requires best { HeadFits head }
    ensures { result ≡ reopened.job_from head budget pool }
{
    let start = start_of(&head);
    Job::new(head.instance, head.gap, budget, pool, start)
}

/// The answer's site with its upper cost, in cost units, if there is one.
fn start_of(head: &Head) -> Option<(Site, i64)>
    ensures { result ≡ option_map offer_of head.now.best }
{
    match head.best() {
        Some((site, _, upper)) => Some((site, upper)),
        None => None,
    }
}
