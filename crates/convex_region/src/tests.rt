//! Polygons that are built or refused, and the points that they hold.

use super::*;
use exact_geometry::{Extent, Place, Pt};
use std::alloc::Global;
use std::process::Abort;

fn polygon(rt: &impl Abort, alloc: Global, corners: &[Place]) -> Polygon {
    Polygon::build(alloc, corners).expect(rt, "a polygon")
}

#[test]
fn a_pentagram_turns_twice(rt: HostRuntime) {
    let pentagram = [
        Place::of(4, 0),
        Place::of(6, 8),
        Place::of(0, 3),
        Place::of(8, 3),
        Place::of(2, 8),
    ];
    let dent = Polygon::build(rt.alloc(), &pentagram).err();
    assert_eq!(rt; dent, Some(PolygonFault::NotConvex { edge: 0, vertex: 3 }));
}

/// It turns left at each corner, and each edge has corner 0 to its left,
/// but it goes round corner 0.
#[test]
fn a_spiral_turns_twice(rt: HostRuntime) {
    let spiral = [
        Place::of(0, 0),
        Place::of(10, 0),
        Place::of(0, 10),
        Place::of(-10, 0),
        Place::of(0, -10),
        Place::of(15, -5),
        Place::of(15, 5),
    ];
    let dent = Polygon::build(rt.alloc(), &spiral).err();
    assert_eq!(rt; dent, Some(PolygonFault::NotConvex { edge: 0, vertex: 3 }));
}

#[test]
fn counts_of_corners(rt: HostRuntime) {
    let two = [Place::of(0, 0), Place::of(4, 0)];
    assert_eq!(rt;
        Polygon::build(rt.alloc(), &two).err(),
        Some(PolygonFault::TooFewVertices)
    );
    let many = [Place::of(7, 7); 65];
    assert_eq!(rt;
        Polygon::build(rt.alloc(), &many).err(),
        Some(PolygonFault::TooManyVertices)
    );
    let most = [Place::of(7, 7); 64];
    let dent = Polygon::build(rt.alloc(), &most).err();
    assert_eq!(rt; dent, Some(PolygonFault::NotConvex { edge: 0, vertex: 2 }));
}

#[test]
fn a_clockwise_square_is_turned(rt: HostRuntime) {
    let clockwise = [
        Place::of(0, 0),
        Place::of(0, 4),
        Place::of(4, 4),
        Place::of(4, 0),
    ];
    let square = polygon(&rt, rt.alloc(), &clockwise);
    let want = [
        Place::of(0, 0),
        Place::of(4, 0),
        Place::of(4, 4),
        Place::of(0, 4),
    ];
    assert_eq!(rt; square.len(), 4);
    for (i, corner) in want.iter().enumerate() {
        assert!(rt; i < square.len());
        assert_eq!(rt; square.vertex(i), *corner);
        assert_eq!(rt; square.edge(i), (*corner, want[(i + 1) % 4]));
    }
    assert_eq!(rt;
        square.bounds(),
        Extent {
            x0: 0,
            y0: 0,
            x1: 262144,
            y1: 262144
        }
    );
}

#[test]
fn a_copy_is_the_same_polygon(rt: HostRuntime) {
    let corners = [Place::of(0, 0), Place::of(4, 0), Place::of(0, 2)];
    let triangle = polygon(&rt, rt.alloc(), &corners);
    let copy = triangle.clone().expect(&rt, "memory");
    drop(triangle);
    assert_eq!(rt; copy.len(), 3);
    for (i, corner) in corners.iter().enumerate() {
        assert!(rt; i < copy.len());
        assert_eq!(rt; copy.vertex(i), *corner);
    }
    assert_eq!(rt;
        copy.bounds(),
        Extent {
            x0: 0,
            y0: 0,
            x1: 262144,
            y1: 131072
        }
    );
}

#[test]
fn a_vertex_on_an_edge_is_refused(rt: HostRuntime) {
    let flat = [
        Place::of(0, 0),
        Place::of(2, 0),
        Place::of(4, 0),
        Place::of(4, 4),
    ];
    let dent = Polygon::build(rt.alloc(), &flat).err();
    assert_eq!(rt; dent, Some(PolygonFault::NotConvex { edge: 0, vertex: 2 }));
}

#[test]
fn points_of_a_triangle_and_of_its_mirror_image(rt: HostRuntime) {
    let triangle = polygon(
        &rt,
        rt.alloc(),
        &[Place::of(0, 0), Place::of(4, 0), Place::of(0, 2)],
    );
    let mirrored = polygon(
        &rt,
        rt.alloc(),
        &[Place::of(0, 0), Place::of(-4, 0), Place::of(0, 2)],
    );
    assert_eq!(rt;
        mirrored.bounds(),
        Extent {
            x0: -262144,
            y0: 0,
            x1: 0,
            y1: 131072
        }
    );
    // A point and its mirror image, whether the closed triangles hold them, and whether their
    // interiors do.
    let table = [
        (Pt::of(65536, 65536), Pt::of(-65536, 65536), true, true),
        // A vertex, a point of each side, and points just beside each.
        (Pt::of(0, 0), Pt::of(0, 0), true, false),
        (Pt::of(131072, 0), Pt::of(-131072, 0), true, false),
        (Pt::of(0, 65536), Pt::of(0, 65536), true, false),
        (Pt::of(131072, 65536), Pt::of(-131072, 65536), true, false),
        (Pt::of(131072, -1), Pt::of(-131072, -1), false, false),
        (Pt::of(-1, 65536), Pt::of(1, 65536), false, false),
        (Pt::of(131073, 65536), Pt::of(-131073, 65536), false, false),
        (Pt::of(131072, 1), Pt::of(-131072, 1), true, true),
        (Pt::of(1, 65536), Pt::of(-1, 65536), true, true),
        (Pt::of(131071, 65536), Pt::of(-131071, 65536), true, true),
    ];
    for (p, mirror_image, closed, inner) in table {
        assert_eq!(rt; triangle.covers(p), closed, "at {p:?}");
        assert_eq!(rt; triangle.covers_inside(p), inner, "at {p:?}");
        assert_eq!(rt;
            mirrored.covers(mirror_image),
            closed,
            "at {mirror_image:?}"
        );
        assert_eq!(rt;
            mirrored.covers_inside(mirror_image),
            inner,
            "at {mirror_image:?}"
        );
    }
}
