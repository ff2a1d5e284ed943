//! The answer of a search that may lease nothing.

ghost use Rattle.pool_core.specs.Job.{IsLawful};
ghost use Rattle.pool_core.specs.Sound.{IsFinished, IsPoolOf};

use super::*;
use answer_model::Word;
use candidate_sites::opening;
use convex_region::Polygon;
use discard_log::{Mark, Node};
use dyadic_square::Square;
use exact_geometry::Place;
use pool_core::{Job, LeaseAnswer, Pool, every_run_is_sound};
use site_model::{DemandPt, Instance, Kind, Site};
use std::alloc::Global;
use std::process::Abort;

#[tactic(auto, unfolding(siting_definitions::specs::Instance::weight))]
fn instance(rt: &impl Abort, alloc: Global) -> Instance {
    let square = [
        Place::of(0, 0),
        Place::of(4, 0),
        Place::of(4, 4),
        Place::of(0, 4),
    ];
    let polygon = Polygon::build(alloc, &square).expect(rt, "a polygon");
    let points = Vec::from_array(alloc, [DemandPt::of(2, 2, 1, None)]).expect(rt, "memory");
    let permitted = Vec::from_array(alloc, [polygon]).expect(rt, "memory");
    Instance::build(Kind::Sum, points, permitted, Vec::new(alloc))
}

/// The job of the instance with a gap of 185 and no leases, from its opening.
fn job(rt: &impl Abort, alloc: Global) -> Job
    ensures { IsLawful result }
{
    let instance = instance(rt, alloc);
    let start = opening(&instance);
    Job::new(instance, 185, 0, 100_000, start)
}

/// The end of a search that is given no lease.
fn stopped(rt: &impl Abort, job: &Job, pool: Pool) -> Closed
    requires { IsPoolOf job.now pool }
    ensures { IsFinished job.now result.pool result.best }
{
    let mut pool = pool;
    match pool.lease() {
        LeaseAnswer::Stopped(_) => Closed {
            pool,
            best: job.start,
        },
        _ => panic!(rt; "a lease without a budget"),
    }
}

#[test]
fn a_search_without_leases(rt: HostRuntime) {
    every_run_is_sound();
    let job = job(&rt, rt.alloc());
    let pool = Pool::begin(rt.alloc(), &job).expect(&rt, "memory");
    let closed = stopped(&rt, &job, pool);
    let (head, nodes) = finish(job, closed);
    assert_eq!(rt; head.site, Some(Site::of(0, 0)));
    assert_eq!(rt; head.cost, Some((185_363, 185_364)));
    assert_eq!(rt; head.bound, Some(0));
    assert_eq!(rt; head.word, Word::Budget);
    assert_eq!(rt; head.open_count, 0);
    assert_eq!(rt; head.leases, 0);
    let root = Node {
        square: Square::of(0, 0, 19),
        mark: Mark::Left(0),
    };
    assert_eq!(rt; nodes.nodes().len(), 1);
    assert_eq!(rt; nodes.nodes().last().copied(), Some(root));
}
