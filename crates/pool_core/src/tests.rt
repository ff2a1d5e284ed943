//! Tests of the pool.

ghost use Rattle.std.specs.Prelude.{◌≡◌, ◌≤◌, [], IsTrue, Some};
ghost use Rattle.siting_definitions.specs.Marks as marks;
ghost use Rattle.siting_definitions.specs.Marks.{IsAtMost, IsCalledFor, IsNoneOrAtLeast};
ghost use Rattle.pool_core.specs.Job.{start_cost};
ghost use Rattle.pool_core.specs.Begun.{IsResumable};

use super::*;
use answer_model::leaf_mark;
use candidate_sites::{centre_site, opening};
use case_maker::{make_instance, one_town};
use discard_log::{Log, Mark, Node, NodeList};
use dyadic_square::Square;
use exclusion::excluded;
use objectives::{cost_of, fine, reaches};
use site_model::Site;
use std::alloc::Global;
use std::process::Abort;

/// The job of the instance with a gap of 185, from its corner.
fn job(rt: &impl Abort, alloc: Global, budget: u32, pool: u32) -> Job
    requires budget { budget ≤ 1000000 }
    requires pool_least { 1 ≤ pool }
    requires pool_most { pool ≤ 1000000 }
{
    let instance = one_town(alloc).expect(rt, "memory");
    let _count = instance.points().len();
    let site = Site::of(0, 0);
    assert!(rt; instance.permits(site.pt()));
    let (_, upper) = cost_of(&instance, site);
    assert_eq!(rt; upper, 185364);
    Job::new(instance, 185, budget, pool, Some((site, upper)))
}

/// Leases a square, judges it, and gives it back.
fn step(
    rt: &impl Abort,
    pool: &mut Pool,
    job: &Job,
    seen: Option<i64>,
) -> (Square, i64, bool, Finding, Given)
    requires job { pool.old.job ≡ job.now }
    requires leased { pool.old.leased ≡ [] }
    ensures job { pool.new.job ≡ job.now }
    ensures leased { pool.new.leased ≡ [] }
{
    let lease = match pool.lease() {
        LeaseAnswer::Leased(lease) => lease,
        _ => panic!(rt; "no lease"),
    };
    let (square, bound, raised) = (lease.square(), lease.bound(), lease.raised());
    let verdict = judge(job, &lease, seen);
    let finding = verdict.finding;
    let given = pool.give_back(lease, verdict);
    (square, bound, raised, finding, given)
}

#[test]
fn one_split_by_hand(rt: HostRuntime) {
    let job = job(&rt, rt.alloc(), 1000, 100000);
    let mut pool = Pool::begin(rt.alloc(), &job).expect(&rt, "memory");
    assert_eq!(rt; pool.open_count(), 1);
    let root = Square::of(0, 0, 19);
    assert_eq!(rt;
        step(&rt, &mut pool, &job, Some(185364)),
        (root, 0, false, Finding::Part(0), Given::Parted)
    );
    assert_eq!(rt; pool.open_count(), 4);
    assert_eq!(rt; pool.leases(), 1);
    assert_eq!(rt; pool.stop(), None);
}

/// A leaf as a node.
fn leaf(job: &Job, square: Square) -> Node
    ensures { result ≡ record {
      square = square;
      mark = marks.leaf_mark job.now.instance job.now.gap (start_cost job.now) square;
    } }
{
    Node {
        square,
        mark: leaf_mark(&job.instance, job.gap, cost_in(&job.start), square),
    }
}

/// Whether there is a number, and it is at most `seen`.
fn is_at_most(number: Option<i64>, seen: i64) -> bool
    ensures { IsTrue result → IsAtMost number seen }
{
    match number {
        None => false,
        Some(number) => number <= seen,
    }
}

/// Whether there is no number, or it is at least `seen`.
fn is_none_or_at_least(number: Option<i64>, seen: i64) -> bool
    ensures { IsTrue result → IsNoneOrAtLeast number seen }
{
    match number {
        None => true,
        Some(number) => number >= seen,
    }
}

/// Checks that a split was called for, after `seen` was seen.
fn check_split(rt: &impl Abort, job: &Job, square: Square, seen: i64)
    ensures { IsCalledFor job.now.instance job.now.gap (start_cost job.now) square (Some seen) }
{
    assert!(rt; square.level > 0);
    assert!(rt; !excluded(&job.instance, square));
    assert!(rt; is_at_most(cost_in(&job.start), seen));
    assert!(rt; !reaches(Some(seen), fine(&job.instance, square), job.gap));
    let opening = opening(&job.instance);
    assert!(rt; is_none_or_at_least(cost_in(&opening), seen));
    let centre = centre_site(&job.instance, square);
    assert!(rt; is_none_or_at_least(cost_in(&centre), seen));
}

/// The nodes of the tree in which the root alone is split.
fn nodes(rt: &impl Abort, alloc: Global, job: &Job) -> NodeList
    requires budget { 1 ≤ job.now.budget }
    requires pool { 5 ≤ job.now.pool }
    ensures { IsResumable job.now result 1 }
{
    let root = job.root;
    check_split(rt, job, root, 185364);
    let mut log = Log::with_room(alloc, 5).expect(rt, "memory");
    log.push(Node {
        square: root,
        mark: Mark::Split(Some(185364)),
    });
    log.push(leaf(job, root.quarter(0)));
    log.push(leaf(job, root.quarter(1)));
    log.push(leaf(job, root.quarter(2)));
    log.push(leaf(job, root.quarter(3)));
    log.in_preorder(root)
}

/// Checks that each leaf that was settled has the finished mark for the least upper cost.
fn check_settled(rt: &impl Abort, job: &Job, least: Option<i64>, nodes: &NodeList) {
    for node in nodes.nodes() {
        match node.mark {
            Mark::Split(_) => {}
            Mark::Left(_) => {}
            _ => {
                let mark = leaf_mark(&job.instance, job.gap, least, node.square);
                assert_eq!(rt; node.mark, mark);
            }
        }
    }
}

/// Takes and gives back so many leases in turn, with what is seen for each, and says whether a
/// square was raised.
fn raises(rt: &impl Abort, pool: &mut Pool, job: &Job, seen: Option<i64>, leases: u32) -> bool
    requires job { pool.old.job ≡ job.now }
    requires leased { pool.old.leased ≡ [] }
    ensures job { pool.new.job ≡ job.now }
    ensures leased { pool.new.leased ≡ [] }
{
    let mut is_raised = false;
    for _ in 0..leases {
        let (_, _, _, _, given) = step(rt, pool, job, seen);
        is_raised |= given == Given::Raised;
    }
    is_raised
}

/// The job of one town of weight 869 that a seed of 7 makes, with no gap.
fn wide_job(rt: &impl Abort, alloc: Global) -> Job {
    let instance = make_instance(alloc, 7, 1).expect(rt, "memory");
    let _count = instance.points().len();
    Job::new(instance, 0, 1000, 1000, None)
}

#[test]
fn settled_squares_have_their_fine_bounds(rt: HostRuntime) {
    // What is seen, for how many leases, whether a square is raised, and how many squares there
    // are.
    let cases = [
        (0, 1, false, 1),
        (1_000_000, 12, false, 17),
        (870, 357, true, 341),
    ];
    for (seen, leases, is_raised, count) in cases {
        let job = wide_job(&rt, rt.alloc());
        let mut pool = Pool::begin(rt.alloc(), &job).expect(&rt, "memory");
        assert_eq!(rt; raises(&rt, &mut pool, &job, Some(seen), leases), is_raised);
        let nodes = pool.into_bounded_nodes();
        assert_eq!(rt; nodes.nodes().len(), count);
        check_settled(&rt, &job, Some(seen), &nodes);
    }
}

#[test]
fn squares_left_open(rt: HostRuntime) {
    let job = job(&rt, rt.alloc(), 10, 100000);
    assert!(rt; job.budget == 10);
    assert!(rt; job.pool == 100000);
    let nodes = nodes(&rt, rt.alloc(), &job);
    let marks = [
        Mark::Split(Some(185364)),
        Mark::Left(0),
        Mark::Left(131072),
        Mark::Left(131072),
        Mark::Bounded(185363),
    ];
    for (node, mark) in nodes.nodes().iter().zip(marks) {
        assert_eq!(rt; node.mark, mark);
    }
    let mut pool = Pool::begin_from(rt.alloc(), &job, &nodes, 1).expect(&rt, "memory");
    assert_eq!(rt; pool.open_count(), 3);
    let first = Square::of(0, 0, 18);
    assert_eq!(rt;
        step(&rt, &mut pool, &job, Some(185364)),
        (first, 0, true, Finding::Part(0), Given::Parted)
    );
    assert_eq!(rt; pool.open_count(), 6);
    assert_eq!(rt; pool.leases(), 2);
    let nodes = pool.into_nodes();
    assert_eq!(rt; nodes.nodes().len(), 9);
    check_settled(&rt, &job, Some(185364), &nodes);
}

/// The stop that is answered, if there is one.
fn stop_in(answer: LeaseAnswer) -> Option<Stop> {
    match answer {
        LeaseAnswer::Stopped(stop) => Some(stop),
        _ => None,
    }
}

#[test]
fn leases_spent(rt: HostRuntime) {
    let job = job(&rt, rt.alloc(), 1, 100000);
    let mut pool = Pool::begin(rt.alloc(), &job).expect(&rt, "memory");
    let (_, _, _, _, given) = step(&rt, &mut pool, &job, Some(185364));
    assert_eq!(rt; given, Given::Parted);
    let stop = Some(Stop::Budget { leases: 1 });
    assert_eq!(rt; stop_in(pool.lease()), stop);
    assert_eq!(rt; pool.stop(), stop);
}

#[test]
fn no_room_for_quarters(rt: HostRuntime) {
    let job = job(&rt, rt.alloc(), 10, 3);
    let mut pool = Pool::begin(rt.alloc(), &job).expect(&rt, "memory");
    let (_, _, _, _, given) = step(&rt, &mut pool, &job, Some(185364));
    assert_eq!(rt; given, Given::Kept);
    assert_eq!(rt; pool.open_count(), 1);
    let stop = Some(Stop::PoolFull { count: 1 });
    assert_eq!(rt; stop_in(pool.lease()), stop);
    assert_eq!(rt; pool.stop(), stop);
}

#[test]
fn nothing_waits(rt: HostRuntime) {
    let job = job(&rt, rt.alloc(), 10, 4);
    let mut pool = Pool::begin(rt.alloc(), &job).expect(&rt, "memory");
    let (_, _, _, finding, given) = step(&rt, &mut pool, &job, Some(185));
    assert_eq!(rt; (finding, given), (Finding::Bounded(0), Given::Logged));
    assert!(rt; matches!(pool.lease(), LeaseAnswer::Done));
    let mut pool = Pool::begin(rt.alloc(), &job).expect(&rt, "memory");
    assert!(rt; matches!(pool.lease(), LeaseAnswer::Leased(_)));
    assert!(rt; matches!(pool.lease(), LeaseAnswer::Idle));
    assert_eq!(rt; pool.stop(), None);
}

fn may_be_sent<T: Send>(_value: &T) {}

fn may_be_shared<T: Send + Sync>(_value: &T) {}

#[test]
fn threads_share_a_job_and_hand_a_pool_on(rt: HostRuntime) {
    let job = job(&rt, rt.alloc(), 1, 1);
    may_be_shared(&job);
    may_be_sent(&Pool::begin(rt.alloc(), &job).expect(&rt, "memory"));
}
