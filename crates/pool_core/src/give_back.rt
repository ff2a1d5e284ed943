//! Giving a leased square back.

ghost use Rattle.std.specs.Prelude.{◌≡◌, ◌+◌, ◌<◌, ◌≤◌, nat_lt, ◌&&◌, ◌||◌, true, false};
ghost use Rattle.std.specs.Prelude.{is_some, Some, [], ◌∷◌, ◌++◌, length, vec_len, vec_capacity};
ghost use Rattle.std.specs.Prelude.{slice_index_or, Contains, IsPermutation};
ghost use Rattle.siting_definitions.specs.Square.{quarter_of};
ghost use Rattle.pool_core.specs.declared.stop.Stop.TheVariants as stops;
ghost use Rattle.pool_core.specs.declared.verdict.Finding.TheVariants as findings;
ghost use Rattle.pool_core.specs.Verdict as verdicts;
ghost use Rattle.pool_core.specs.Verdict.{finding_of, is_part};
ghost use Rattle.pool_core.specs.Machine.{Returns, entries_from, first_stop, nodes_from};
ghost use Rattle.pool_core.specs.Logged.{bound_from};
ghost use Rattle.pool_core.specs.PoolAnswers as pool_answers;
ghost use Rattle.pool_core.specs.PoolAnswers.{given_of};

use crate::job::Job;
use crate::lease::Lease;
use crate::pool::Pool;
use crate::stop::Stop;
use crate::verdict::{Bounds, Finding, Verdict, bounds_of, fine_in};
use bound_heap::{Entry, Heap};
use discard_log::{Log, Mark, Node};
use dyadic_square::Square;

/// What became of a square that was given back.
#[derive(Clone, Copy, Debug, PartialEq, Eq)]
pub enum Given {
    /// It became a node: excluded, settled, or of level 0.
    Logged,
    /// It waits again, with its fine bound.
    Raised,
    /// It was split, and its quarters wait.
    Parted,
    /// It waits again as it was, since there was a stop or no room for three more open squares,
    /// which is a stop from now on.
    Kept,
}

impl Pool {
    /// Takes a leased square back with the verdict on it. The lease is one of this pool's, and the
    /// verdict is the one on it for the pool's job and the number that was seen.
    pub fn give_back(&mut self, lease: Lease, verdict: Verdict) -> Given
        requires leased { Contains self.old.leased lease }
        requires verdict { verdict.finding ≡ finding_of self.old.job lease verdict.seen }
        ensures step { Returns lease verdict.seen verdict.finding self.old self.new }
        ensures given { result ≡ given_of self.old verdict.finding }
    {
        let bounds = bounds_of(&self.job, &lease);
        self.give_back_by(lease, bounds, verdict)
    }

    /// Takes a leased square back as `give_back` does, from one who knows its bounds.
    pub fn give_back_by(&mut self, lease: Lease, bounds: Bounds, verdict: Verdict) -> Given
        requires leased { Contains self.old.leased lease }
        requires bounds { bounds ≡ verdicts.bounds_of self.old.job lease }
        requires verdict { verdict.finding ≡ finding_of self.old.job lease verdict.seen }
        ensures step { Returns lease verdict.seen verdict.finding self.old self.new }
        ensures given { result ≡ given_of self.old verdict.finding }
    {
        let Lease { entry } = lease;
        let square = entry.square;
        let count = self.open_count();
        take_out(&mut self.leased, &entry);
        if is_kept(self.stop, &self.job, count, verdict.finding) {
            self.waiting.push(entry);
            self.kept += 1;
            self.stop = Some(earlier(self.stop, count));
            return Given::Kept;
        }
        wait_found(&mut self.waiting, square, verdict.finding);
        log_found(&mut self.log, square, verdict.seen, verdict.finding);
        keep_bound(&mut self.fine_bounds, verdict.finding, bounds);
        given_by(verdict.finding)
    }
}

/// Whether a part isn't made: there is a stop, or so many squares are open that there is no room
/// for three more.
fn is_kept(stop: Option<Stop>, job: &Job, count: u32, finding: Finding) -> bool
    requires { count ≤ job.now.pool }
    ensures { result ≡ (is_part finding && (is_some stop || nat_lt job.now.pool (count + 3))) }
{
    matches!(finding, Finding::Part(_)) && (stop.is_some() || job.pool < count + 3)
}

/// What becomes of a square by a finding, where a part is made.
fn given_by(finding: Finding) -> Given
    ensures { result ≡ pool_answers.given_by finding }
{
    match finding {
        Finding::Excluded => Given::Logged,
        Finding::Bounded(_) => Given::Logged,
        Finding::Floor(_) => Given::Logged,
        Finding::Raise(_) => Given::Raised,
        Finding::Part(_) => Given::Parted,
    }
}

/// The stop, or where there is none, that for want of room where so many squares are open.
fn earlier(stop: Option<Stop>, count: u32) -> Stop
    ensures { Some result ≡ first_stop stop (stops.PoolFull count) }
{
    match stop {
        Some(first) => first,
        None => Stop::PoolFull { count },
    }
}

/// Logs the node that a finding makes of a square, if it makes one, after `seen` was seen.
fn log_found(log: &mut Log, square: Square, seen: Option<i64>, finding: Finding)
    requires { 0 < log.old.spare }
    ensures nodes { log.new.nodes ≡ log.old.nodes ++ nodes_from square seen finding }
    ensures spare { log.new.spare + length (nodes_from square seen finding) ≡ log.old.spare }
{
    match finding {
        Finding::Excluded => add_node(log, square, Mark::Shut),
        Finding::Bounded(bound) => add_node(log, square, Mark::Bounded(bound)),
        Finding::Floor(bound) => add_node(log, square, Mark::Floor(bound)),
        Finding::Part(_) => add_node(log, square, Mark::Split(seen)),
        Finding::Raise(_) => {}
    }
}

/// Keeps the fine bound among the bounds of a square, where the finding is that the gap settles it.
fn keep_bound(fine_bounds: &mut Vec<i64>, finding: Finding, bounds: Bounds)
    requires { vec_len fine_bounds.old < vec_capacity fine_bounds.old }
    ensures bounds { fine_bounds.new.items
        ≡ fine_bounds.old.items ++ bound_from finding (verdicts.fine_in bounds) }
    ensures capacity { vec_capacity fine_bounds.old ≤ vec_capacity fine_bounds.new }
{
    match (finding, fine_in(bounds)) {
        (Finding::Bounded(_), Some(fine)) => add_bound(fine_bounds, fine),
        _ => {}
    }
}

/// Adds a bound, in cost units, last.
fn add_bound(fine_bounds: &mut Vec<i64>, fine: i64)
    requires { vec_len fine_bounds.old < vec_capacity fine_bounds.old }
    ensures bounds { fine_bounds.new.items ≡ fine_bounds.old.items ++ fine ∷ [] }
    ensures capacity { vec_capacity fine_bounds.old ≤ vec_capacity fine_bounds.new }
{
    match fine_bounds.push(fine) {
        Ok(()) => {}
        Err(_) => unreachable!(),
    }
}

/// Adds a square with its mark to the log.
fn add_node(log: &mut Log, square: Square, mark: Mark)
    requires { 0 < log.old.spare }
    ensures nodes { log.new.nodes ≡ log.old.nodes ++ record { square = square; mark = mark } ∷ [] }
    ensures spare { log.new.spare + 1 ≡ log.old.spare }
{
    log.push(Node { square, mark });
}

/// Adds to those that wait what a finding lets wait: the square with its fine bound, its quarters,
/// or nothing.
fn wait_found(waiting: &mut Heap, square: Square, finding: Finding)
    requires level { is_part finding ≡ true → 0 < square.level }
    requires room { length (entries_from square finding) ≤ waiting.old.spare }
    ensures entries { IsPermutation (entries_from square finding ++ waiting.old.entries)
        waiting.new.entries }
    ensures spare { waiting.new.spare + length (entries_from square finding) ≡ waiting.old.spare }
{
    match finding {
        Finding::Raise(bound) => waiting.push(Entry {
            square,
            bound,
            raised: true,
        }),
        Finding::Part(bound) => wait_quarters(waiting, square, bound),
        Finding::Excluded => {}
        Finding::Bounded(_) => {}
        Finding::Floor(_) => {}
    }
}

/// Adds the four quarters of a square, with this bound in cost units, to those that wait.
fn wait_quarters(waiting: &mut Heap, square: Square, bound: i64)
    requires level { 0 < square.level }
    requires room { 4 ≤ waiting.old.spare }
    ensures entries { IsPermutation
        (entries_from square (findings.Part bound) ++ waiting.old.entries)
        waiting.new.entries }
    ensures spare { waiting.new.spare + 4 ≡ waiting.old.spare }
{
    wait_quarter(waiting, square, 0, bound);
    wait_quarter(waiting, square, 1, bound);
    wait_quarter(waiting, square, 2, bound);
    wait_quarter(waiting, square, 3, bound);
}

/// Adds quarter `i` of a square, with this bound in cost units, to those that wait.
fn wait_quarter(waiting: &mut Heap, square: Square, i: u8, bound: i64)
    requires level { 0 < square.level }
    requires number { i < 4 }
    requires room { 0 < waiting.old.spare }
    ensures entries { IsPermutation
        (record { square = quarter_of square i; bound = bound; raised = false }
        ∷ waiting.old.entries)
        waiting.new.entries }
    ensures spare { waiting.new.spare + 1 ≡ waiting.old.spare }
{
    waiting.push(Entry {
        square: square.quarter(i),
        bound,
        raised: false,
    });
}

/// Takes an entry out of the leased ones.
fn take_out(leased: &mut Vec<Entry>, entry: &Entry)
    requires { Contains leased.old.items entry.now }
    ensures items { IsPermutation leased.old.items (entry.now ∷ leased.new.items) }
    ensures capacity { vec_capacity leased.new ≡ vec_capacity leased.old }
{
    let index = index_of(leased.as_slice(), entry);
    leased.swap_remove(index);
}

/// The index of an entry in a list that holds it.
fn index_of(entries: &[Entry], entry: &Entry) -> usize
    requires { Contains entries.now entry.now }
    ensures within { result < length entries.now }
    ensures value { entry.now ≡ slice_index_or entries.now result entry.now }
{
    for (i, other) in entries.iter().enumerate() {
        if *other == *entry {
            return i;
        }
    }
    unreachable!()
}
