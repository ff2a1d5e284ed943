//! A team of workers over one shared pool.

ghost use Rattle.std.specs.Prelude.{◌≡◌, ◌≤◌, ◌<◌, true, [], All, IfOk, MatchOption, ⊤};
ghost use Rattle.std.specs.Prelude.{vec_len, vec_capacity};
ghost use denote.Param.Send.{IsSync};
ghost use Rattle.siting_definitions.specs.Marks.{IsAtMost};
ghost use Rattle.pool_core.specs.Job as jobs;
ghost use Rattle.pool_core.specs.Sound.{IsFinished, IsPoolOf};
ghost use Rattle.pool_core.specs.Seats.{IsKeptBy};
ghost use Rattle.shared_pool.specs.TableFits.{IsReached};
ghost use Rattle.shared_pool.specs.Desks.{IsRootOf, first_pool, root_view};
ghost use Rattle.site_workers.specs.Team.{HasEnded, IsFree, IsWorkOf};

use crate::gate::Gate;
use crate::member::work;
use pool_core::{Closed, Job, Pool};
use shared_pool::{Desk, RootDesk, SharedPool};
use std::alloc::{AllocError, Global};
use std::sync::Wait;
use std::thread::{Threads, join_mut};

/// Memory ran out for a team, before its first lease.
#[derive(Clone, Copy, Debug, PartialEq, Eq)]
pub struct NoMemory;

impl From<AllocError> for NoMemory {
    fn from(_: AllocError) -> NoMemory {
        NoMemory
    }
}

impl From<shared_pool::NoMemory> for NoMemory {
    fn from(_: shared_pool::NoMemory) -> NoMemory {
        NoMemory
    }
}

/// So many workers over one shared pool, 1 to 64, until nothing is open or there is a stop.
/// `NoMemory` where memory ran out before the first lease, and the pool is given up.
///
/// It waits for the workers. Where no thread can be made they work one after another.
pub fn team<R: Threads + Wait + Sync, G: Gate + Sync>(
    rt: &R,
    alloc: Global,
    job: &Job,
    pool: Pool,
    workers: u32,
    gate: &G,
) -> Result<Closed, NoMemory>
    requires pool { IsPoolOf job.now pool }
    requires least { 1 ≤ workers }
    requires most { workers ≤ 64 }
    ensures finished { IfOk result (λ closed. IsFinished job.now closed.pool closed.best) }
    ensures run { IfOk result (λ closed. IsReached pool (jobs.cost_in closed.best) closed.pool) }
    ensures work { IfOk result (λ closed.
        IsWorkOf workers pool closed.pool (jobs.cost_in closed.best)) }
    ensures beginning { IfOk result (λ closed. closed.pool.beginning ≡ pool.beginning) }
    ensures improved { IfOk result (λ closed.
        MatchOption (jobs.start_cost job.now) ⊤ (IsAtMost (jobs.cost_in closed.best))) }
    ensures kept { IfOk result (λ closed. IsKeptBy closed.pool workers) }
{
    let mut desks = Vec::with_capacity(alloc, workers as usize)?;
    let (shared, mut root) = SharedPool::begin(alloc, job, pool)?;
    seat_out_all(&shared, &mut root, workers, &mut desks);
    work_halves(rt, gate, &shared, job, desks.as_mut_slice());
    take_in_all(&shared, &mut root, desks);
    Ok(shared.close(root))
}

/// Seats out so many desks. There is room for them.
fn seat_out_all(shared: &SharedPool, root: &mut RootDesk, count: u32, desks: &mut Vec<Desk>)
    requires root { IsRootOf shared.now root.old }
    requires first { ((root_view root.old).out ≡ 0) × ((root_view root.old).seats ≡ 0) }
    requires empty { desks.old.items ≡ [] }
    requires room { count ≤ vec_capacity desks.old }
    ensures root { IsRootOf shared.now root.new }
    ensures out { ((root_view root.new).out ≡ count) × ((root_view root.new).seats ≡ count) }
    ensures desks { vec_len desks.new ≡ count }
    ensures free { All (IsFree shared.now) desks.new.items }
{
    while desks.len() < count as usize {
        match desks.push(root.seat_out(shared)) {
            Ok(()) => {}
            Err(_) => unreachable!(),
        }
    }
}

/// Takes in all desks, which have ended.
fn take_in_all(shared: &SharedPool, root: &mut RootDesk, mut desks: Vec<Desk>)
    requires root { IsRootOf shared.now root.old }
    requires out { (root_view root.old).out ≡ vec_len desks }
    requires some { 0 < vec_len desks }
    requires ended { All (HasEnded shared.now) desks.items }
    ensures root { IsRootOf shared.now root.new }
    ensures out { (root_view root.new).out ≡ 0 }
    ensures seats { (root_view root.new).seats ≡ (root_view root.old).seats }
    ensures ended { (root_view root.new).ended ≡ true }
{
    while let Some(desk) = desks.pop() {
        root.take_in(shared, desk);
    }
}

/// Works with each desk, in a thread of its own where one can be made.
#[cycle(halves)]
fn work_halves<R: Threads + Wait + Sync, G: Gate + Sync>(
    rt: &R,
    gate: &G,
    shared: &SharedPool,
    job: &Job,
    desks: &mut [Desk],
)
    requires job { (first_pool shared.now).job ≡ job.now }
    requires desks { All (IsFree shared.now) desks.old }
    ensures { All (HasEnded shared.now) desks.new }
{
    if desks.is_empty() {
        return;
    }
    if desks.len() == 1 {
        work(rt, gate, shared, job, &mut desks[0]);
        return;
    }
    let (front, back) = desks.split_at_mut(desks.len() / 2);
    work_both(rt, gate, shared, job, front, back);
}

/// Works with the desks of both halves, at the same time where a thread can be made.
#[cycle(halves)]
fn work_both<R: Threads + Wait + Sync, G: Gate + Sync>(
    rt: &R,
    gate: &G,
    shared: &SharedPool,
    job: &Job,
    front: &mut [Desk],
    back: &mut [Desk],
)
    requires job { (first_pool shared.now).job ≡ job.now }
    requires front { All (IsFree shared.now) front.old }
    requires back { All (IsFree shared.now) back.old }
    ensures front { All (HasEnded shared.now) front.new }
    ensures back { All (HasEnded shared.now) back.new }
{
    let mut first = ||
        requires { IsSync R.row × IsSync G.row × ((first_pool shared.now).job ≡ job.now)
            × All (IsFree shared.now) front.now }
        ensures { All (HasEnded shared.entry.now) front.exit.now }
    { work_halves(rt, gate, shared, job, front) };
    let mut second = ||
        requires { IsSync R.row × IsSync G.row × ((first_pool shared.now).job ≡ job.now)
            × All (IsFree shared.now) back.now }
        ensures { All (HasEnded shared.entry.now) back.exit.now }
    { work_halves(rt, gate, shared, job, back) };
    join_mut(rt, &mut first, &mut second);
}
