//! Squares beside, on and inside polygons.

use super::*;
use convex_region::Polygon;
use dyadic_square::Square;
use exact_geometry::Place;
use site_model::{DemandPt, Instance, Kind};
use std::alloc::Global;
use std::process::Abort;

fn polygons(rt: &impl Abort, alloc: Global, corners: &[Place]) -> Vec<Polygon> {
    let polygon = Polygon::build(alloc, corners).expect(rt, "a polygon");
    Vec::from_array(alloc, [polygon]).expect(rt, "memory")
}

fn a_square(rt: &impl Abort, alloc: Global) -> Vec<Polygon> {
    let corners = [
        Place::of(0, 0),
        Place::of(8, 0),
        Place::of(8, 8),
        Place::of(0, 8),
    ];
    polygons(rt, alloc, &corners)
}

fn a_triangle(rt: &impl Abort, alloc: Global) -> Vec<Polygon> {
    let corners = [Place::of(0, 0), Place::of(8, 0), Place::of(0, 8)];
    polygons(rt, alloc, &corners)
}

#[tactic(auto, unfolding(siting_definitions::specs::Instance::weight))]
fn one_point(
    rt: &impl Abort,
    alloc: Global,
    permitted: Vec<Polygon>,
    forbidden: Vec<Polygon>,
) -> Instance {
    assert_eq!(rt; permitted.len(), 1);
    assert!(rt; forbidden.len() <= 1);
    let points = Vec::from_array(alloc, [DemandPt::of(2, 2, 1, None)]).expect(rt, "memory");
    Instance::build(Kind::Sum, points, permitted, forbidden)
}

#[test]
fn squares_apart_from_what_is_permitted(rt: HostRuntime) {
    let alloc = rt.alloc();
    let square = one_point(&rt, alloc, a_square(&rt, alloc), Vec::new(alloc));
    // Beside it, in one point of it, and one grid unit off.
    assert_eq!(rt; excluded(&square, Square::of(0, 0, 16)), false);
    assert_eq!(rt; excluded(&square, Square::of(524288, 524288, 16)), false);
    assert_eq!(rt; excluded(&square, Square::of(524289, 524288, 16)), true);
    assert_eq!(rt; excluded(&square, Square::of(-65536, 0, 16)), false);
    assert_eq!(rt; excluded(&square, Square::of(-65537, 0, 16)), true);

    // Only the slanted edge parts these from the triangle.
    let triangle = one_point(&rt, alloc, a_triangle(&rt, alloc), Vec::new(alloc));
    assert_eq!(rt; excluded(&triangle, Square::of(262144, 262144, 16)), false);
    assert_eq!(rt; excluded(&triangle, Square::of(262145, 262144, 16)), true);
}

#[test]
fn squares_inside_what_is_forbidden(rt: HostRuntime) {
    let alloc = rt.alloc();
    let instance = one_point(&rt, alloc, a_square(&rt, alloc), a_triangle(&rt, alloc));
    // All corners inside, three of them with one on the border, and two on the border.
    assert_eq!(rt; excluded(&instance, Square::of(131072, 196608, 16)), true);
    assert_eq!(rt; excluded(&instance, Square::of(196608, 196608, 16)), false);
    assert_eq!(rt; excluded(&instance, Square::of(0, 65536, 16)), false);
}
