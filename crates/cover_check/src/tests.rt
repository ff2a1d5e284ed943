//! A cover worked by hand, and what the check answers where it is changed.

use super::*;
use convex_region::Polygon;
use edge_chain::Vertex;
use exact_geometry::Place;
use site_model::{DemandPt, Instance, Kind};
use std::alloc::Global;
use std::process::Abort;

/// The instance permits the square from (0, 0) to (4, 4), and forbids a triangle in it.
#[tactic(auto, unfolding(siting_definitions::specs::Instance::weight))]
fn instance(rt: &impl Abort, alloc: Global) -> Instance {
    let square = [
        Place::of(0, 0),
        Place::of(4, 0),
        Place::of(4, 4),
        Place::of(0, 4),
    ];
    let triangle = [Place::of(1, 1), Place::of(3, 1), Place::of(1, 3)];
    let points = Vec::from_array(alloc, [DemandPt::of(0, 0, 3, None)]).expect(rt, "memory");
    let permitted = Polygon::build(alloc, &square).expect(rt, "a polygon");
    let forbidden = Polygon::build(alloc, &triangle).expect(rt, "a polygon");
    let allowed = Vec::from_array(alloc, [permitted]).expect(rt, "memory");
    let barred = Vec::from_array(alloc, [forbidden]).expect(rt, "memory");
    Instance::build(Kind::Sum, points, allowed, barred)
}

fn ring(rt: &impl Abort, alloc: Global, vertices: &[Vertex]) -> Vec<Ring> {
    let vertices = vertices.to_vec(alloc).expect(rt, "memory");
    Vec::from_array(alloc, [Ring::of(vertices)]).expect(rt, "memory")
}

/// The region is a square to `right`, the forbidden area a triangle to `top`, both in halves of a
/// length. One half of the square has this owner; its other half has the permitted square.
fn drawn(rt: &impl Abort, alloc: Global, right: i64, top: i64, owner: Option<u32>) -> Cover {
    let a = Vertex::of(0, 0);
    let b = Vertex::of(right.clamp(0, 9), 0);
    let c = Vertex::of(right.clamp(0, 9), 8);
    let d = Vertex::of(0, 8);
    let region = ring(rt, alloc, &[a, b, c, d]);
    let corner = Vertex::of(2, 2);
    let forbidden = ring(
        rt,
        alloc,
        &[corner, Vertex::of(6, 2), Vertex::of(2, top.clamp(0, 9))],
    );
    let lower = Owned {
        triangle: Triangle { a, b, c },
        owner,
        line: 7,
    };
    let upper = Owned {
        triangle: Triangle { a, b: c, c: d },
        owner: Some(0),
        line: 8,
    };
    let triangles = Vec::from_array(alloc, [lower, upper]).expect(rt, "memory");
    let tile = Tile::of(0, 0, 8, 8);
    Cover::of(1, tile, region, forbidden, triangles, instance(rt, alloc))
}

#[test]
fn the_first_test_that_fails(rt: HostRuntime) {
    let table = [
        (8, 6, Some(0), None),
        (8, 9, Some(0), None),
        (8, 5, Some(0), Some(CoverFault::Piece(1))),
        (9, 6, Some(0), Some(CoverFault::Triangle(7))),
        (8, 6, Some(1), Some(CoverFault::Owner(7))),
        (8, 6, None, Some(CoverFault::Tile(7))),
    ];
    for (right, top, owner, want) in table {
        let cover = drawn(&rt, rt.alloc(), right, top, owner);
        assert_eq!(rt; check(rt.alloc(), &cover), Ok(want));
    }
}

/// A triangle left out, or turned, leaves edges over.
#[test]
fn edges_left_over(rt: HostRuntime) {
    let a = Vertex::of(0, 0);
    let b = Vertex::of(8, 0);
    let c = Vertex::of(8, 8);
    let alone = Owned {
        triangle: Triangle { a, b, c },
        owner: Some(0),
        line: 7,
    };
    let triangles = Vec::from_array(rt.alloc(), [alone]).expect(&rt, "memory");
    let region = ring(&rt, rt.alloc(), &[a, b, c, Vertex::of(0, 8)]);
    let none = ring(&rt, rt.alloc(), &[]);
    let cover = Cover::of(
        1,
        Tile::of(0, 0, 8, 8),
        region,
        none,
        triangles,
        instance(&rt, rt.alloc()),
    );
    assert_eq!(rt; check(rt.alloc(), &cover), Ok(Some(CoverFault::Edges)));
}
