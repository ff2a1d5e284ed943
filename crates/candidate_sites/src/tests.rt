//! Openings and centres of small instances.

ghost use Rattle.siting_definitions.specs.Instance.{IsCoordinate};

use super::*;
use convex_region::Polygon;
use dyadic_square::Square;
use exact_geometry::Place;
use site_model::{DemandPt, Instance, Kind, Site};
use std::alloc::Global;
use std::process::Abort;

fn polygons(rt: &impl Abort, alloc: Global, corners: &[Place]) -> Vec<Polygon> {
    let polygon = Polygon::build(alloc, corners).expect(rt, "a polygon");
    Vec::from_array(alloc, [polygon]).expect(rt, "memory")
}

fn squares(rt: &impl Abort, alloc: Global, low: i32, high: i32) -> Vec<Polygon>
    requires low { IsCoordinate low }
    requires high { IsCoordinate high }
{
    let corners = [
        Place::of(low, low),
        Place::of(high, low),
        Place::of(high, high),
        Place::of(low, high),
    ];
    polygons(rt, alloc, &corners)
}

#[tactic(auto, unfolding(siting_definitions::specs::Instance::weight))]
fn one_point(
    rt: &impl Abort,
    alloc: Global,
    permitted: Vec<Polygon>,
    forbidden: Vec<Polygon>,
) -> Instance {
    assert_eq!(rt; permitted.len(), 1);
    assert!(rt; forbidden.len() <= 1);
    let points = Vec::from_array(alloc, [DemandPt::of(2, 2, 1, None)]).expect(rt, "memory");
    Instance::build(Kind::Sum, points, permitted, forbidden)
}

#[test]
fn openings(rt: HostRuntime) {
    let alloc = rt.alloc();
    let none = one_point(&rt, alloc, squares(&rt, alloc, 0, 4), Vec::new(alloc));
    assert_eq!(rt; opening(&none), Some((Site::of(0, 0), 185364)));
    // The interior alone is forbidden: each vertex stays permitted.
    let inside = one_point(
        &rt,
        alloc,
        squares(&rt, alloc, 0, 4),
        squares(&rt, alloc, 0, 4),
    );
    assert_eq!(rt; opening(&inside), Some((Site::of(0, 0), 185364)));
    // A vertex of the forbidden polygon is permitted and nearer: sqrt(2) * 65536 is 92681.9.
    let nearer = one_point(
        &rt,
        alloc,
        squares(&rt, alloc, 0, 4),
        squares(&rt, alloc, 1, 3),
    );
    assert_eq!(rt; opening(&nearer), Some((Site::of(65536, 65536), 92682)));
    let nowhere = one_point(
        &rt,
        alloc,
        squares(&rt, alloc, 0, 4),
        squares(&rt, alloc, -1, 5),
    );
    assert_eq!(rt; opening(&nowhere), None);
}

/// The vertices of a polygon from the lower left corner of its bounding box, which is the first.
#[rattlefmt::skip]
static ROUNDED: [(i32, i32); 16] = [
    (0, 0), (1, 0), (5, 1), (8, 2), (10, 3), (11, 4), (12, 6), (13, 9),
    (13, 10), (12, 13), (11, 15), (10, 16), (8, 17), (5, 18), (1, 19), (0, 19),
];

/// That polygon with this corner.
fn rounded(rt: &impl Abort, alloc: Global, corner: (i32, i32)) -> Polygon {
    let mut corners = Vec::new(alloc);
    for (across, upwards) in ROUNDED {
        let x = corner.0.wrapping_add(across);
        let y = corner.1.wrapping_add(upwards);
        assert!(rt; x.unsigned_abs() <= 1000000);
        assert!(rt; y.unsigned_abs() <= 1000000);
        corners.push(Place::of(x, y)).expect(rt, "memory");
    }
    Polygon::build(alloc, corners.as_slice()).expect(rt, "a polygon")
}

/// The opening where two such polygons are permitted, and the origin attracts.
#[tactic(auto, unfolding(siting_definitions::specs::Instance::weight))]
fn opening_of_two(
    rt: &impl Abort,
    alloc: Global,
    first: (i32, i32),
    second: (i32, i32),
) -> Option<(Site, i64)> {
    let points = Vec::from_array(alloc, [DemandPt::of(0, 0, 1, None)]).expect(rt, "memory");
    let polygons = [rounded(rt, alloc, first), rounded(rt, alloc, second)];
    let permitted = Vec::from_array(alloc, polygons).expect(rt, "memory");
    opening(&Instance::build(Kind::Sum, points, permitted, Vec::new(alloc)))
}

#[test]
fn openings_of_polygons_with_many_vertices(rt: HostRuntime) {
    let alloc = rt.alloc();
    let near = Site::of(1966080, 2621440);
    let table = [
        // One of them is far away.
        ((30, 40), (300, 400), near, 3276800),
        ((300, 400), (30, 40), near, 3276800),
        // The nearest corners are both at a distance of 50: the first one wins.
        ((30, 40), (40, 30), near, 3276800),
        ((40, 30), (30, 40), Site::of(2621440, 1966080), 3276800),
        // sqrt(32768^2 + 1) * 65536 lies between 2147483648 and 2147483649.
        ((32768, 1), (32768, 0), Site::of(2147483648, 0), 2147483648),
        ((32768, 0), (32768, 1), Site::of(2147483648, 0), 2147483648),
        // The nearest vertex is (-89, -85): sqrt(15146) * 65536 is 8065455.6.
        (
            (-100, -100),
            (300, 400),
            Site::of(-5832704, -5570560),
            8065456,
        ),
        (
            (300, 400),
            (-100, -100),
            Site::of(-5832704, -5570560),
            8065456,
        ),
    ];
    for (first, second, site, cost) in table {
        let found = opening_of_two(&rt, alloc, first, second);
        assert_eq!(rt; found, Some((site, cost)), "of {first:?} and {second:?}");
    }
}

#[test]
fn centres(rt: HostRuntime) {
    let alloc = rt.alloc();
    let instance = one_point(&rt, alloc, squares(&rt, alloc, 0, 4), Vec::new(alloc));
    let table = [
        (
            Square::of(0, 0, 19),
            Some((Site::of(262144, 262144), 185364)),
        ),
        (Square::of(0, 0, 18), Some((Site::of(131072, 131072), 0))),
        (Square::of(0, 0, 20), None),
        (Square::of(0, 0, 0), None),
    ];
    for (square, want) in table {
        assert_eq!(rt; centre_site(&instance, square), want, "of {square:?}");
        let site = want.map(|(site, _)| site);
        assert_eq!(rt; permitted_centre(&instance, square), site, "of {square:?}");
    }
}
