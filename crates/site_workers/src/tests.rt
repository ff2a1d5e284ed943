//! The search by one worker, and by teams.

ghost use Rattle.std.specs.Prelude.{◌≤◌, ◌≤ℤ◌, pos};
ghost use Rattle.siting_definitions.specs.Instance.{IsCoordinate};
ghost use Rattle.pool_core.specs.Job.{IsLawful};

use super::*;
use crate::centre::may_be_cheaper;
use answer_model::{Head, Word};
use candidate_sites::opening;
use convex_region::Polygon;
use discard_log::{Mark, NodeList};
use exact_geometry::Place;
use pool_core::{Bounds, Job, Pool, every_run_is_sound};
use site_model::{DemandPt, Instance, Kind, Site};
use std::alloc::Global;
use std::process::Abort;
use std::sync::atomic::{AtomicBool, AtomicU64, Ordering};

/// One town, and a permitted square from (0, 0) to (side, side), all in lengths.
#[tactic(auto, unfolding(siting_definitions::specs::Instance::weight))]
fn instance(rt: &impl Abort, alloc: Global, town: Place, side: i32) -> Instance
    requires { IsCoordinate side }
{
    let square = [
        Place::of(0, 0),
        Place::of(side, 0),
        Place::of(side, side),
        Place::of(0, side),
    ];
    let polygon = Polygon::build(alloc, &square).expect(rt, "a polygon");
    let point = DemandPt::of(town.x, town.y, 1, None);
    let points = Vec::from_array(alloc, [point]).expect(rt, "memory");
    let permitted = Vec::from_array(alloc, [polygon]).expect(rt, "memory");
    Instance::build(Kind::Sum, points, permitted, Vec::new(alloc))
}

/// The job of an instance with this gap and so many leases, from its opening.
fn job_of(instance: Instance, gap: i64, budget: u32) -> Job
    requires gap { (pos 0 ≤ℤ gap) × (gap ≤ℤ pos 1000) }
    requires budget { budget ≤ 1000000 }
    ensures { IsLawful result }
{
    let start = opening(&instance);
    Job::new(instance, gap, budget, 100_000, start)
}

/// The job of a town amid a square, with a gap of 185 and so many leases.
fn job(rt: &impl Abort, alloc: Global, budget: u32) -> Job
    requires { budget ≤ 1000000 }
    ensures { IsLawful result }
{
    job_of(instance(rt, alloc, Place::of(2, 2), 4), 185, budget)
}

/// Checks the answer to the job with one lease, which is the same in whatever order workers step.
fn check_one_lease(rt: &impl Abort, head: &Head, nodes: &NodeList) {
    assert_eq!(rt; head.best(), Some((Site::of(0, 0), 185_363, 185_364)));
    assert_eq!(rt; head.bound, Some(0));
    assert_eq!(rt; head.word, Word::Budget);
    assert_eq!(rt; head.open_count, 0);
    assert_eq!(rt; head.leases, 1);
    let marks = [
        Mark::Split(Some(185_364)),
        Mark::Left(0),
        Mark::Left(131_072),
        Mark::Left(131_072),
        Mark::Bounded(185_363),
    ];
    assert_eq!(rt; nodes.nodes().len(), 5);
    for (node, mark) in nodes.nodes().iter().zip(marks) {
        assert_eq!(rt; node.mark, mark);
    }
}

#[test]
fn a_search_with_one_lease(rt: HostRuntime) {
    every_run_is_sound();
    let job = job(&rt, rt.alloc(), 1);
    let pool = Pool::begin(rt.alloc(), &job).expect(&rt, "memory");
    let closed = alone(&job, pool);
    assert_eq!(rt; closed.best, Some((Site::of(0, 0), 185_364)));
    let (head, nodes) = finish(job, closed);
    check_one_lease(&rt, &head, &nodes);
}

#[test]
fn a_team_with_one_lease(rt: HostRuntime) {
    every_run_is_sound();
    let job = job(&rt, rt.alloc(), 1);
    let pool = Pool::begin(rt.alloc(), &job).expect(&rt, "memory");
    let Ok(closed) = team(&rt, rt.alloc(), &job, pool, 3, &OpenGate) else {
        panic!(&rt; "memory")
    };
    let (head, nodes) = finish_by_workers(&rt, job, closed, 3);
    check_one_lease(&rt, &head, &nodes);
}

#[test]
fn which_centres_may_be_cheaper(rt: HostRuntime) {
    let both = Bounds::Both { coarse: 3, fine: 7 };
    let table = [
        (Bounds::Excluded, None, false),
        (Bounds::Excluded, Some(7), false),
        (Bounds::Raised(7), None, true),
        (Bounds::Raised(7), Some(6), false),
        (Bounds::Raised(7), Some(7), false),
        (Bounds::Raised(7), Some(8), true),
        (both, None, true),
        (both, Some(4), false),
        (both, Some(7), false),
        (both, Some(8), true),
        (Bounds::Raised(i64::MAX), Some(i64::MAX), false),
        (Bounds::Raised(i64::MIN), Some(i64::MIN), false),
    ];
    for (bounds, seen, want) in table {
        assert_eq!(rt;
            may_be_cheaper(bounds, seen),
            want,
            "of {bounds:?} and {seen:?}"
        );
    }
}

/// Checks the answer to a job whose root the gap settles by its fine bound.
fn check_root(rt: &impl Abort, head: &Head, nodes: &NodeList, best: (i64, i64, i64), bound: i64) {
    let (at, lower, upper) = best;
    let (site, least, most) = head.best().expect(rt, "a site");
    assert_eq!(rt; (site.x, site.y), (at, at));
    assert_eq!(rt; (least, most), (lower, upper));
    assert_eq!(rt; head.bound, Some(bound));
    assert_eq!(rt; head.word, Word::Solved);
    assert_eq!(rt; head.leases, 1);
    assert_eq!(rt; nodes.nodes().len(), 1);
    assert_eq!(rt; nodes.nodes()[0].mark, Mark::Bounded(bound));
}

/// Where the town is and the gap, then the coordinates of the best site, its lower and upper cost,
/// and the fine bound of the root, over a permitted square of side 3, whose opening is (0, 0) in
/// the first two rows. The bound of the first row is the opening's cost, so the centre isn't
/// priced. That of the second is one below, so it is, and costs more. In the third it is the best.
#[rattlefmt::skip]
static ROOTS: [(i32, i32, i64, (i64, i64, i64), i64); 3] = [
    (-1, 0, 0, (0, 65_536, 65_536), 65_536),
    (-1, -1, 1, (0, 92_681, 92_682), 92_681),
    (2, 2, 0, (131_072, 0, 0), 0),
];

/// The job of such a root, with one lease.
fn root_job(rt: &impl Abort, alloc: Global, x: i32, y: i32, gap: i64) -> Job
    ensures { IsLawful result }
{
    assert!(rt; -10 <= x && x <= 10 && -10 <= y && y <= 10);
    assert!(rt; 0 <= gap && gap <= 1000);
    job_of(instance(rt, alloc, Place::of(x, y), 3), gap, 1)
}

#[test]
fn roots_that_the_gap_settles(rt: HostRuntime) {
    every_run_is_sound();
    for &(x, y, gap, best, bound) in &ROOTS {
        let job = root_job(&rt, rt.alloc(), x, y, gap);
        let pool = Pool::begin(rt.alloc(), &job).expect(&rt, "memory");
        let closed = alone(&job, pool);
        let (head, nodes) = finish(job, closed);
        check_root(&rt, &head, &nodes, best, bound);
    }
}

#[test]
fn roots_that_the_gap_settles_by_a_team(rt: HostRuntime) {
    every_run_is_sound();
    for &(x, y, gap, best, bound) in &ROOTS {
        let job = root_job(&rt, rt.alloc(), x, y, gap);
        let pool = Pool::begin(rt.alloc(), &job).expect(&rt, "memory");
        let Ok(closed) = team(&rt, rt.alloc(), &job, pool, 2, &OpenGate) else {
            panic!(&rt; "memory")
        };
        let (head, nodes) = finish(job, closed);
        check_root(&rt, &head, &nodes, best, bound);
    }
}

/// How often the gate that waits looks before it gives up.
const LOOKS: u32 = 200_000_000;

/// A gate that holds the worker that is second to get a lease until a third lease was got.
#[derive(Drop)]
struct Meeting {
    leased: AtomicU64,
    gave_up: AtomicBool,
}

impl Gate for Meeting {
    fn pass(&self, moment: Moment) {
        if moment != Moment::Leased || self.leased.fetch_add(1, Ordering::SeqCst) != 1 {
            return;
        }
        for _ in 0..LOOKS {
            if self.leased.load(Ordering::SeqCst) > 2 {
                return;
            }
        }
        self.gave_up.store(true, Ordering::SeqCst);
    }
}

#[test]
fn two_workers_at_once(rt: HostRuntime) {
    every_run_is_sound();
    let job = job(&rt, rt.alloc(), 1000);
    let pool = Pool::begin(rt.alloc(), &job).expect(&rt, "memory");
    let gate = Meeting {
        leased: AtomicU64::new(0),
        gave_up: AtomicBool::new(false),
    };
    let closed = team(&rt, rt.alloc(), &job, pool, 2, &gate);
    assert!(rt; closed.is_ok());
    assert!(rt; gate.leased.load(Ordering::SeqCst) >= 3);
    assert!(rt; !gate.gave_up.load(Ordering::SeqCst));
}
