//! One worker of a team.

ghost use Rattle.std.specs.Prelude.{◌≡◌, true, IsSome};
ghost use Rattle.shared_pool.specs.Desks.{first_pool, view};
ghost use Rattle.shared_pool.specs.Runs.{AddsLook};
ghost use Rattle.site_workers.specs.Team.{HasBounds, HasEnded, HasLease, HasLooked};
ghost use Rattle.site_workers.specs.Team.{HasOffered, HasVerdict, IsFree};

use crate::centre::may_be_cheaper;
use crate::gate::{Gate, Moment};
use candidate_sites::centre_site;
use crossbeam_utils::Backoff;
use pool_core::{Bounds, Job, Verdict, bounds_of, judge_by};
use shared_pool::{Desk, SharedPool, TryLease, TryReturn};
use std::sync::Wait;

/// Works with a desk until nothing is open or there is a stop: leases a square, offers its centre
/// site where that may be cheaper than what it has seen, looks, judges the square with what it has
/// seen then, and gives it back. Where the turn is taken or nothing waits it tries again, after a
/// pause.
pub(crate) fn work<R: Wait, G: Gate>(
    rt: &R,
    gate: &G,
    shared: &SharedPool,
    job: &Job,
    desk: &mut Desk,
)
    requires job { (first_pool shared.now).job ≡ job.now }
    requires desk { IsFree shared.now desk.old }
    ensures { HasEnded shared.now desk.new }
{
    let backoff = Backoff::new();
    for _ in rt.forever() {
        match shared.try_lease(desk) {
            TryLease::Got => {
                gate.pass(Moment::Leased);
                work_off(rt, gate, shared, job, desk);
                backoff.reset();
            }
            TryLease::Idle => {
                gate.pass(Moment::Idle);
                backoff.snooze();
            }
            TryLease::Busy => {
                gate.pass(Moment::Busy);
                backoff.snooze();
            }
            TryLease::Done => return,
            TryLease::Stopped(_) => return,
        }
    }
    unreachable!()
}

/// Offers the centre site of the leased square, looks, judges the square and gives it back.
fn work_off<R: Wait, G: Gate>(rt: &R, gate: &G, shared: &SharedPool, job: &Job, desk: &mut Desk)
    requires job { (first_pool shared.now).job ≡ job.now }
    requires desk { HasLease shared.now desk.old }
    ensures { IsFree shared.now desk.new }
{
    let bounds = lease_bounds(job, desk);
    let verdict = judge_lease(shared, job, desk, bounds);
    gate.pass(Moment::Judged);
    give_back(rt, gate, shared, desk, bounds, verdict);
}

/// The verdict on the leased square, which has these bounds, after its centre site was offered and
/// the incumbent was looked at.
fn judge_lease(shared: &SharedPool, job: &Job, desk: &mut Desk, bounds: Bounds) -> Verdict
    requires job { (first_pool shared.now).job ≡ job.now }
    requires desk { HasLease shared.now desk.old }
    requires bounds { HasBounds job.now (view desk.old) bounds }
    ensures verdict { HasVerdict shared.now desk.new bounds result }
    ensures looked { HasLooked (view desk.new) }
{
    offer_centre(shared, job, desk, bounds);
    look(shared, desk);
    match desk.lease() {
        None => unreachable!(),
        Some(lease) => judge_by(job, lease, bounds, desk.seen()),
    }
}

/// The bounds of the leased square.
fn lease_bounds(job: &Job, desk: &Desk) -> Bounds
    requires { IsSome (view desk.now).lease }
    ensures { HasBounds job.now (view desk.now) result }
{
    match desk.lease() {
        None => unreachable!(),
        Some(lease) => bounds_of(job, lease),
    }
}

/// Offers the centre site of the leased square, which has these bounds, if it has one and that may
/// be cheaper than what the desk has seen.
fn offer_centre(shared: &SharedPool, job: &Job, desk: &mut Desk, bounds: Bounds)
    requires job { (first_pool shared.now).job ≡ job.now }
    requires desk { HasLease shared.now desk.old }
    requires bounds { HasBounds job.now (view desk.old) bounds }
    ensures offered { HasOffered shared.now desk.new }
    ensures lease { (view desk.new).lease ≡ (view desk.old).lease }
{
    let instance = &job.instance;
    if !may_be_cheaper(bounds, desk.seen()) {
        return;
    }
    let square = match desk.lease() {
        None => unreachable!(),
        Some(lease) => lease.square(),
    };
    match centre_site(instance, square) {
        None => {}
        Some((site, upper)) => {
            shared.offer(desk, site, upper);
        }
    }
}

/// Looks at the incumbent.
fn look(shared: &SharedPool, desk: &mut Desk)
    requires { HasOffered shared.now desk.old }
    ensures offered { HasOffered shared.now desk.new }
    ensures looked { AddsLook (view desk.new).seen (view desk.old) (view desk.new) }
    ensures fresh { (view desk.new).fresh ≡ true }
    ensures lease { (view desk.new).lease ≡ (view desk.old).lease }
{
    shared.look(desk);
}

/// Gives the lease, whose square has these bounds, back with the verdict on it, as soon as it gets the turn.
fn give_back<R: Wait, G: Gate>(
    rt: &R,
    gate: &G,
    shared: &SharedPool,
    desk: &mut Desk,
    bounds: Bounds,
    verdict: Verdict,
)
    requires { HasVerdict shared.now desk.old bounds verdict }
    ensures { IsFree shared.now desk.new }
{
    let backoff = Backoff::new();
    for _ in rt.forever() {
        match shared.try_return_by(desk, bounds, verdict) {
            TryReturn::Taken(_) => return,
            TryReturn::Busy => {
                gate.pass(Moment::Busy);
                backoff.snooze();
            }
        }
    }
    unreachable!()
}
