//! Building polygons.

ghost use Rattle.std.specs.Prelude.{◌≡◌, ◌<◌, ◌≤◌, ◌↔◌, ℕ, ◌-ℤ◌};
ghost use Rattle.std.specs.Prelude.{◌*ℤ◌, ◌++◌, length, take, drop, reverse};
ghost use Rattle.std.specs.Prelude.{IsTrue, IfOk, IfSome, IfNone, All, unsigned_abs};
ghost use Rattle.siting_definitions.specs.Point as points;
ghost use Rattle.siting_definitions.specs.Polygon as polygons;
ghost use Rattle.siting_definitions.specs.Polygon.{vertex};
ghost use Rattle.siting_definitions.specs.Instance.{IsCoordinate, IsPlace};
ghost use Rattle.siting_definitions.specs.Excluded as excluded;
ghost use Rattle.siting_definitions.specs.declared.TheConstants.{VERTEX_LIMIT};
ghost use Rattle.convex_region.specs.Dent.{IsDent, IsFirstDent, Builds};

use crate::polygon::{Polygon, next_of, side_at};
use crate::turns::is_convex;
use exact_geometry::{Extent, Place};
use siting_definitions::{UNIT, VERTEX_LIMIT};
use std::alloc::{AllocError, Global};

/// Why a list of places is no polygon.
#[derive(Clone, Copy, Debug, PartialEq, Eq)]
pub enum PolygonFault {
    /// Fewer than 3 places.
    TooFewVertices,
    /// More than 64 places.
    TooManyVertices,
    /// Memory ran out for the vertices.
    NoMemory,
    /// Vertex `vertex`, which is no end of edge `edge`, doesn't lie strictly to its left: the first
    /// such pair, in order of edge and then vertex, of the list after turning.
    NotConvex {
        /// The edge from vertex `edge` to the next one.
        edge: u8,
        /// The vertex that lies beside or on the edge.
        vertex: u8,
    },
}

impl Polygon {
    /// The polygon with these corners, turned to be counter-clockwise: the
    /// first corner stays first.
    ///
    /// `TooFewVertices` exactly for fewer than 3 corners, `TooManyVertices` exactly for more than
    /// 64. Of the others `NotConvex` only where the turned list isn't convex, and `NoMemory` where
    /// memory ran out.
    pub fn build(alloc: Global, corners: &[Place]) -> Result<Polygon, PolygonFault>
        ensures { Builds corners.now result }
    {
        if corners.len() < 3 {
            return Err(PolygonFault::TooFewVertices);
        }
        if corners.len() > VERTEX_LIMIT {
            return Err(PolygonFault::TooManyVertices);
        }
        let Ok(vertices) = turned_list(alloc, corners) else {
            return Err(PolygonFault::NoMemory);
        };
        if let Some((edge, vertex)) = dent_of(vertices.as_slice()) {
            return Err(PolygonFault::NotConvex {
                edge: edge as u8,
                vertex: vertex as u8,
            });
        }
        let bounds = box_of(vertices.as_slice());
        Ok(Polygon { vertices, bounds })
    }
}

/// The vertices counter-clockwise: where their area is negative, all but the first in reverse.
fn turned_list(alloc: Global, vertices: &[Place]) -> Result<Vec<Place>, AllocError>
    requires few { 3 ≤ length vertices.now }
    requires many { length vertices.now ≤ VERTEX_LIMIT }
    ensures { IfOk result (λ v. v.items ≡ polygons.turned vertices.now) }
{
    let mut all = Vec::from_slice(alloc, vertices)?;
    if doubled_area(vertices) < 0 {
        reverse_after_first(all.as_mut_slice());
    }
    Ok(all)
}

/// Reverses all vertices but the first.
fn reverse_after_first(vertices: &mut [Place])
    requires { 1 ≤ length vertices.old }
    ensures { vertices.new ≡ take 1 vertices.old ++ reverse (drop 1 vertices.old) }
{
    vertices[1..].reverse();
}

/// Twice the signed area, in square lengths.
fn doubled_area(vertices: &[Place]) -> i64
    requires { length vertices.now ≤ VERTEX_LIMIT }
    ensures { result ≡ polygons.doubled_area vertices.now }
{
    let mut area = 0;
    for i in 0..vertices.len() {
        area += cross(vertices[i], vertices[next_of(vertices.len(), i)]);
    }
    area
}

/// Twice the signed area of the triangle of the origin, `a` and `b`, in square lengths.
fn cross(a: Place, b: Place) -> i64
    ensures value { result ≡ a.x *ℤ b.y -ℤ b.x *ℤ a.y }
    ensures size { unsigned_abs result ≤ 2000000000000 }
{
    product(a.x, b.y) - product(b.x, a.y)
}

/// The product of two coordinates, in square lengths.
fn product(a: i32, b: i32) -> i64
    requires a { IsCoordinate a }
    requires b { IsCoordinate b }
    ensures value { result ≡ a *ℤ b }
    ensures size { unsigned_abs result ≤ 1000000000000 }
{
    a as i64 * b as i64
}

/// Whether vertex `j` is no end of edge `i` and doesn't lie strictly to its left.
fn is_dent(vertices: &[Place], i: usize, j: usize) -> bool
    requires edge { i < length vertices.now }
    requires vertex { j < length vertices.now }
    ensures { IsTrue result ↔ IsDent vertices.now i j }
{
    j != i && j != next_of(vertices.len(), i) && side_at(vertices, i, vertices[j].grid()) <= 0
}

/// The first vertex that makes a dent at edge `i`.
fn dent_at(vertices: &[Place], i: usize) -> Option<usize>
    requires { i < length vertices.now }
    ensures none { IfNone result ((j : ℕ) → ¬ (IsDent vertices.now i j)) }
    ensures some { IfSome result (λ j. IsDent vertices.now i j
        × ((l : ℕ) → l < j → ¬ (IsDent vertices.now i l))) }
{
    for j in 0..vertices.len() {
        if is_dent(vertices, i, j) {
            return Some(j);
        }
    }
    None
}

/// The first dent, as edge and vertex. It is looked for only where one pass doesn't
/// show that there is none.
fn dent_of(vertices: &[Place]) -> Option<(usize, usize)>
    ensures none { IfNone result ((i j : ℕ) → ¬ (IsDent vertices.now i j)) }
    ensures some { IfSome result (λ d. IsFirstDent vertices.now d.0 d.1) }
{
    if is_convex(vertices) {
        None
    } else {
        first_dent(vertices)
    }
}

/// The first dent, as edge and vertex.
fn first_dent(vertices: &[Place]) -> Option<(usize, usize)>
    ensures none { IfNone result ((i j : ℕ) → ¬ (IsDent vertices.now i j)) }
    ensures some { IfSome result (λ d. IsFirstDent vertices.now d.0 d.1) }
{
    for i in 0..vertices.len() {
        if let Some(j) = dent_at(vertices, i) {
            return Some((i, j));
        }
    }
    None
}

/// The bounding box, in grid units.
fn box_of(vertices: &[Place]) -> Extent
    requires { 0 < length vertices.now }
    ensures value { result ≡ excluded.box_of vertices.now }
    ensures places { All IsPlace vertices.now }
{
    let first = vertices[0];
    let (mut x0, mut y0) = (first.x, first.y);
    let (mut x1, mut y1) = (first.x, first.y);
    for v in &vertices[1..] {
        let v = *v;
        x0 = x0.min(v.x);
        y0 = y0.min(v.y);
        x1 = x1.max(v.x);
        y1 = y1.max(v.y);
    }
    Extent {
        x0: UNIT as i64 * x0 as i64,
        y0: UNIT as i64 * y0 as i64,
        x1: UNIT as i64 * x1 as i64,
        y1: UNIT as i64 * y1 as i64,
    }
}
