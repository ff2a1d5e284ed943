//! Windings, clear edges and cancelling, worked by hand.

use super::*;
use std::alloc::Global;
use std::process::Abort;

/// The edges of a ring.
fn ring(rt: &impl Abort, alloc: Global, corners: &[(i64, i64)]) -> Vec<Edge> {
    let mut edges = Vec::new(alloc);
    for i in 0..corners.len() {
        let next = if i + 1 == corners.len() { 0 } else { i + 1 };
        let ((ax, ay), (bx, by)) = (corners[i], corners[next]);
        let edge = Edge {
            start: vertex(ax, ay),
            end: vertex(bx, by),
        };
        edges.push(edge).expect(rt, "memory");
    }
    edges
}

fn vertex(x: i64, y: i64) -> Vertex {
    Vertex::of(x.clamp(-1000, 1000), y.clamp(-1000, 1000))
}

/// The point (x, y), in halves of three thirds: both are given in units.
fn point(x: i64, y: i64) -> Thirds {
    Thirds {
        x: 3 * x.clamp(-1000, 1000),
        y: 3 * y.clamp(-1000, 1000),
    }
}

const SQUARE: [(i64, i64); 4] = [(0, 0), (10, 0), (10, 10), (0, 10)];

const LAKE: [(i64, i64); 4] = [(2, 2), (2, 8), (8, 8), (8, 2)];

const ISLAND: [(i64, i64); 4] = [(4, 4), (6, 4), (6, 6), (4, 6)];

/// A square with a lake and an island in it: the rings of both are clockwise and
/// counter-clockwise.
#[test]
fn a_lake_and_an_island(rt: HostRuntime) {
    let outer = ring(&rt, rt.alloc(), &SQUARE);
    let lake = ring(&rt, rt.alloc(), &LAKE);
    let island = ring(&rt, rt.alloc(), &ISLAND);
    let table = [
        ((1, 1), (1, 0, 0)),
        ((3, 3), (1, -1, 0)),
        ((5, 5), (1, -1, 1)),
        ((11, 5), (0, 0, 0)),
        ((-1, 5), (0, 0, 0)),
        ((5, -1), (0, 0, 0)),
    ];
    for ((x, y), (a, b, c)) in table {
        let p = point(x, y);
        assert_eq!(rt; winding(outer.as_slice(), p), a);
        assert_eq!(rt; winding(lake.as_slice(), p), b);
        assert_eq!(rt; winding(island.as_slice(), p), c);
    }
}

/// A bowtie winds once round one wing, and once the other way round the other.
#[test]
fn a_bowtie(rt: HostRuntime) {
    let bowtie = ring(&rt, rt.alloc(), &[(0, 0), (4, 4), (4, 0), (0, 4)]);
    assert_eq!(rt; winding(bowtie.as_slice(), point(1, 2)), 1);
    assert_eq!(rt; winding(bowtie.as_slice(), point(3, 2)), -1);
    assert_eq!(rt; winding(bowtie.as_slice(), point(2, 3)), 0);
}

/// Two squares with a common border cancel there, and a spike cancels itself.
#[test]
fn what_cancels(rt: HostRuntime) {
    let there = ring(&rt, rt.alloc(), &SQUARE);
    let back = ring(&rt, rt.alloc(), &[(0, 10), (10, 10), (10, 0), (0, 0)]);
    let spike = ring(&rt, rt.alloc(), &[(0, 0), (7, 3)]);
    let mut both = there.clone().expect(&rt, "memory");
    for e in &back {
        both.push(*e).expect(&rt, "memory");
    }
    assert_eq!(rt; cancel(rt.alloc(), both), Ok(true));
    assert_eq!(rt; cancel(rt.alloc(), spike), Ok(true));
    assert_eq!(rt; cancel(rt.alloc(), there), Ok(false));
    assert_eq!(rt; cancel(rt.alloc(), Vec::new(rt.alloc())), Ok(true));
}

/// Edges beside, at and through the square.
#[test]
fn clear_edges(rt: HostRuntime) {
    let square = [vertex(0, 0), vertex(10, 0), vertex(10, 10), vertex(0, 10)];
    let table = [
        ((12, 0), (12, 9), true),
        ((10, 2), (10, 7), true),
        ((-5, 5), (5, 15), true),
        ((10, 5), (20, 5), true),
        ((-5, -5), (-5, -5), true),
        ((-5, 5), (15, 5), false),
        ((9, 5), (20, 5), false),
        ((3, 3), (3, 3), true),
        ((0, 0), (10, 10), false),
    ];
    for ((ax, ay), (bx, by), want) in table {
        let edge = Edge {
            start: vertex(ax, ay),
            end: vertex(bx, by),
        };
        assert_eq!(rt; is_clear(&square, edge), want);
        assert_eq!(rt; is_clear(&square, edge.reversed()), want);
    }
}

#[test]
fn corners_and_inner_points(rt: HostRuntime) {
    let square = [vertex(0, 0), vertex(10, 0), vertex(10, 10), vertex(0, 10)];
    assert_eq!(rt; inner_point(&square), Thirds { x: 20, y: 10 });
    assert!(rt; covers(&square, vertex(10, 10)));
    assert!(rt; covers(&square, vertex(3, 3)));
    assert!(rt; !covers(&square, vertex(11, 3)));
    let edge = Edge {
        start: vertex(10, 0),
        end: vertex(10, 10),
    };
    assert!(rt; rises(edge, point(5, 0)));
    assert!(rt; !rises(edge, point(5, 10)));
    assert!(rt; !rises(edge, point(10, 5)));
}
