//! Where a site may stand, starting squares, and copies.

use super::*;
use convex_region::Polygon;
use dyadic_square::Square;
use exact_geometry::{Place, Pt};
use std::alloc::Global;
use std::process::Abort;

fn polygon(rt: &impl Abort, alloc: Global, corners: &[Place]) -> Polygon {
    Polygon::build(alloc, corners).expect(rt, "a polygon")
}

#[tactic(auto, unfolding(siting_definitions::specs::Instance::weight))]
fn instance(rt: &impl Abort, alloc: Global, permitted: &[Place], forbidden: &[Place]) -> Instance {
    let points = Vec::from_array(alloc, [DemandPt::of(0, 0, -3, None)]).expect(rt, "memory");
    let allowed = Vec::from_array(alloc, [polygon(rt, alloc, permitted)]).expect(rt, "memory");
    let barred = Vec::from_array(alloc, [polygon(rt, alloc, forbidden)]).expect(rt, "memory");
    Instance::build(Kind::Max, points, allowed, barred)
}

#[test]
fn where_a_site_may_stand(rt: HostRuntime) {
    let square = [
        Place::of(0, 0),
        Place::of(4, 0),
        Place::of(4, 4),
        Place::of(0, 4),
    ];
    let middle = [
        Place::of(1, 1),
        Place::of(3, 1),
        Place::of(3, 3),
        Place::of(1, 3),
    ];
    let instance = instance(&rt, rt.alloc(), &square, &middle);
    assert_eq!(rt; instance.kind(), Kind::Max);
    assert_eq!(rt; instance.weight(), 3);
    assert_eq!(rt; instance.points().len(), 1);
    assert_eq!(rt; instance.permitted().len(), 1);
    assert_eq!(rt; instance.forbidden().len(), 1);
    let table = [
        // A border and a vertex of the permitted polygon, and points just outside.
        (Pt::of(0, 65536), true),
        (Pt::of(262144, 262144), true),
        (Pt::of(-1, 65536), false),
        (Pt::of(262145, 262144), false),
        // Inside the forbidden polygon, on its border, at its vertex, and just outside.
        (Pt::of(131072, 131072), false),
        (Pt::of(65537, 65537), false),
        (Pt::of(65536, 131072), true),
        (Pt::of(65536, 65536), true),
        (Pt::of(65535, 131072), true),
    ];
    for (p, want) in table {
        assert_eq!(rt; instance.permits(p), want, "at {p:?}");
    }
    assert_eq!(rt; instance.root(), Square::of(0, 0, 19));
}

#[test]
fn starting_squares(rt: HostRuntime) {
    let triangle = [Place::of(3, 4), Place::of(9, 4), Place::of(3, 10)];
    let small = instance(&rt, rt.alloc(), &triangle, &triangle);
    assert_eq!(rt; small.root(), Square::of(196608, 262144, 19));
    let all = [
        Place::of(-1000000, -1000000),
        Place::of(1000000, -1000000),
        Place::of(1000000, 1000000),
        Place::of(-1000000, 1000000),
    ];
    let large = instance(&rt, rt.alloc(), &all, &triangle);
    assert_eq!(rt; large.root(), Square::of(-65536000000, -65536000000, 37));
}

#[test]
fn sites_and_demand_points(rt: HostRuntime) {
    let site = Site::of(-274877906944, 5);
    assert_eq!(rt; site.pt(), Pt::of(-274877906944, 5));
    assert_eq!(rt;
        site,
        Site {
            x: -274877906944,
            y: 5
        }
    );
    let point = DemandPt::of(-7, 8, 16000000, Some(4000000));
    assert_eq!(rt; point.cutoff, Some(4000000));
}

#[test]
fn a_copy_is_the_same_instance(rt: HostRuntime) {
    let allowed = [Place::of(3, 4), Place::of(9, 4), Place::of(3, 10)];
    let barred = [Place::of(4, 5), Place::of(6, 5), Place::of(5, 6)];
    let first = instance(&rt, rt.alloc(), &allowed, &barred);
    let copy = first.clone().expect(&rt, "memory");
    drop(first);
    assert_eq!(rt; copy.kind(), Kind::Max);
    assert_eq!(rt; copy.weight(), 3);
    assert_eq!(rt; copy.points().len(), 1);
    assert_eq!(rt; copy.points()[0], DemandPt::of(0, 0, -3, None));
    assert_eq!(rt; copy.permitted().len(), 1);
    assert_eq!(rt; copy.permitted()[0].vertex(1), Place::of(9, 4));
    assert_eq!(rt; copy.forbidden().len(), 1);
    assert_eq!(rt; copy.forbidden()[0].vertex(2), Place::of(5, 6));
    assert_eq!(rt; copy.root(), Square::of(196608, 262144, 19));
    assert!(rt; !copy.has_cutoff());
}

fn is_shared<T: Send + Sync>(_value: &T) {}

#[test]
fn threads_may_share_an_instance(rt: HostRuntime) {
    let triangle = [Place::of(3, 4), Place::of(9, 4), Place::of(3, 10)];
    is_shared(&instance(&rt, rt.alloc(), &triangle, &triangle));
}
