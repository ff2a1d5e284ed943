//! Two desks at one table.

ghost use Rattle.std.specs.Prelude.{◌≡◌, IsTrue, None, MatchOption, ⊤};
ghost use Rattle.siting_definitions.specs.Sites.{centre_cost};
ghost use Rattle.siting_definitions.specs.Marks.{IsAtMost};
ghost use Rattle.pool_core.specs.Job.{IsLawful};
ghost use Rattle.shared_pool.specs.Desks.{IsDeskOf, view};

use super::*;
use candidate_sites::{centre_site, opening};
use convex_region::Polygon;
use dyadic_square::Square;
use exact_geometry::Place;
use objectives::cost_of;
use pool_core::{Finding, Given, Job, Pool, every_run_is_sound, judge};
use site_model::{DemandPt, Instance, Kind, Site};
use std::alloc::Global;
use std::process::Abort;

#[tactic(auto, unfolding(siting_definitions::specs::Instance::weight))]
fn instance(rt: &impl Abort, alloc: Global) -> Instance {
    let square = [
        Place::of(-1, -1),
        Place::of(1, -1),
        Place::of(1, 1),
        Place::of(-1, 1),
    ];
    let polygon = Polygon::build(alloc, &square).expect(rt, "a polygon");
    let points = Vec::from_array(alloc, [DemandPt::of(0, 0, 1, None)]).expect(rt, "memory");
    let permitted = Vec::from_array(alloc, [polygon]).expect(rt, "memory");
    Instance::build(Kind::Sum, points, permitted, Vec::new(alloc))
}

/// The job of the instance with no gap, 10 leases and room for 10 squares, from its opening.
fn job(rt: &impl Abort, alloc: Global) -> Job
    ensures { IsLawful result }
{
    let instance = instance(rt, alloc);
    let start = opening(&instance);
    Job::new(instance, 0, 10, 10, start)
}

/// Offers the site (x, 0) with its upper cost, which is x, and says what was answered.
fn offer(rt: &impl Abort, shared: &SharedPool, desk: &mut Desk, job: &Job, x: i64) -> i64
    requires desk { IsDeskOf shared.now desk.old }
    requires job { (view desk.old).first.job ≡ job.now }
    ensures desk { IsDeskOf shared.now desk.new }
    ensures first { (view desk.new).first ≡ (view desk.old).first }
    ensures lease { (view desk.new).lease ≡ (view desk.old).lease }
{
    assert!(rt; x >= 0 && x < 1000);
    let site = Site::of(x, 0);
    assert!(rt; job.instance.permits(site.pt()));
    let (_, upper) = cost_of(&job.instance, site);
    assert_eq!(rt; upper, x);
    shared.offer(desk, site, upper)
}

/// Gets a lease.
fn get(rt: &impl Abort, shared: &SharedPool, desk: &mut Desk)
    requires desk { IsDeskOf shared.now desk.old }
    requires lease { (view desk.old).lease ≡ None }
    ensures desk { IsDeskOf shared.now desk.new }
    ensures first { (view desk.new).first ≡ (view desk.old).first }
{
    match shared.try_lease(desk) {
        TryLease::Got => {}
        _ => panic!(rt; "no lease"),
    }
}

/// Finds that nothing waits.
fn find_nothing(rt: &impl Abort, shared: &SharedPool, desk: &mut Desk)
    requires desk { IsDeskOf shared.now desk.old }
    requires lease { (view desk.old).lease ≡ None }
    ensures desk { IsDeskOf shared.now desk.new }
    ensures lease { (view desk.new).lease ≡ None }
{
    match shared.try_lease(desk) {
        TryLease::Idle => {}
        _ => panic!(rt; "something waits"),
    }
}

/// Whether there is a number, and it is at most `most`.
fn is_at_most(number: Option<i64>, most: i64) -> bool
    ensures { IsTrue result → IsAtMost number most }
{
    match number {
        None => false,
        Some(number) => number <= most,
    }
}

/// Checks that what was seen is at most the upper cost of a square's centre site, if it has one.
fn check_centre(rt: &impl Abort, job: &Job, square: Square, seen: Option<i64>)
    ensures { MatchOption (centre_cost job.now.instance square) ⊤ (IsAtMost seen) }
{
    match centre_site(&job.instance, square) {
        None => {}
        Some((_, upper)) => assert!(rt; is_at_most(seen, upper)),
    }
}

/// Judges the lease of a desk, and gives it back.
fn give_back(rt: &impl Abort, shared: &SharedPool, desk: &mut Desk, job: &Job) -> (Finding, Given)
    requires desk { IsDeskOf shared.now desk.old }
    requires job { (view desk.old).first.job ≡ job.now }
    ensures desk { IsDeskOf shared.now desk.new }
    ensures lease { (view desk.new).lease ≡ None }
{
    let seen = desk.seen();
    assert!(rt; desk.fresh());
    let Some(lease) = desk.lease() else {
        panic!(rt; "no lease")
    };
    let square = lease.square();
    let verdict = judge(job, lease, seen);
    check_centre(rt, job, square, seen);
    match shared.try_return(desk, verdict) {
        TryReturn::Taken(given) => (verdict.finding, given),
        TryReturn::Busy => panic!(rt; "the turn is taken"),
    }
}

#[test]
fn two_desks(rt: HostRuntime) {
    every_run_is_sound();
    let job = job(&rt, rt.alloc());
    assert_eq!(rt; pool_core::cost_in(&job.start), Some(92_682));
    let pool = Pool::begin(rt.alloc(), &job).expect(&rt, "memory");
    let (shared, mut root) = SharedPool::begin(rt.alloc(), &job, pool).expect(&rt, "memory");
    let mut a = root.seat_out(&shared);
    let mut b = root.seat_out(&shared);
    assert_eq!(rt; offer(&rt, &shared, &mut a, &job, 500), 500);
    assert_eq!(rt; offer(&rt, &shared, &mut b, &job, 700), 500);
    assert_eq!(rt; shared.look(&mut b), Some(500));
    get(&rt, &shared, &mut a);
    find_nothing(&rt, &shared, &mut b);
    assert_eq!(rt; shared.look(&mut a), Some(500));
    assert_eq!(rt;
        give_back(&rt, &shared, &mut a, &job),
        (Finding::Part(0), Given::Parted)
    );
    assert_eq!(rt; a.best(), Some((Site::of(500, 0), 500)));
    assert_eq!(rt; b.best(), Some((Site::of(700, 0), 700)));
    root.take_in(&shared, a);
    root.take_in(&shared, b);
    let closed = shared.close(root);
    assert_eq!(rt; closed.best, Some((Site::of(500, 0), 500)));
    assert_eq!(rt; closed.pool.open_count(), 4);
}

fn may_be_sent<T: Send>(_value: &T) {}

fn may_be_shared<T: Send + Sync>(_value: &T) {}

#[test]
fn threads_share_a_pool_and_hand_desks_on(rt: HostRuntime) {
    every_run_is_sound();
    let job = job(&rt, rt.alloc());
    let pool = Pool::begin(rt.alloc(), &job).expect(&rt, "memory");
    let (shared, mut root) = SharedPool::begin(rt.alloc(), &job, pool).expect(&rt, "memory");
    may_be_shared(&shared);
    may_be_sent(&root.seat_out(&shared));
    may_be_sent(&root);
}
