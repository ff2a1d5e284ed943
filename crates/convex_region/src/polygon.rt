//! A polygon, and which points it holds.

ghost use Rattle.std.specs.Prelude.{◌≡◌, ◌<◌, length};
ghost use Rattle.siting_definitions.specs.Point.{point_of};
ghost use Rattle.siting_definitions.specs.Point as points;
ghost use Rattle.siting_definitions.specs.Polygon as polygons;
ghost use Rattle.siting_definitions.specs.Polygon.{vertex};
ghost use Rattle.siting_definitions.specs.Instance.{IsPolygon};
ghost use Rattle.siting_definitions.specs.Excluded.{box_of};

use exact_geometry::{Extent, Place, Pt, side};
use std::alloc::AllocError;
use std::marker::Model;

/// A convex polygon: 3 to 64 places, counter-clockwise, each strictly to the left of each edge that
/// it isn't an end of.
#[derive(Debug, Drop)]
pub struct Polygon {
    pub(crate) vertices: Vec<Place>,
    pub(crate) bounds: Extent,
}

impl Model for Polygon {
    ghost use Rattle.std.specs.Prelude.{List};
    ghost use Rattle.siting_definitions.specs.Point as points;
    ghost use Rattle.convex_region.specs.Polygon.{PolygonFits};

    ghost Value = { List points.Place };

    ghost view = { λ a. a.vertices.items };

    ghost invariant = { λ a. PolygonFits a.vertices.items a.bounds };
}

/// A copy is the same polygon. It takes memory, so it may fail.
impl Clone for Polygon {
    ghost is_clone = { λ polygon copy. copy ≡ polygon };

    fn clone(&self) -> Result<Polygon, AllocError> {
        let vertices = self.vertices.clone()?;
        Ok(Polygon {
            vertices,
            bounds: self.bounds,
        })
    }
}

impl Polygon {
    /// How many vertices the polygon has, 3 to 64.
    pub fn len(&self) -> usize
        ensures value { result ≡ length self.now }
        ensures polygon { IsPolygon self.now }
    {
        self.vertices.len()
    }

    /// Vertex `i`, in the order of the polygon as it stands, counter-clockwise.
    pub fn vertex(&self, i: usize) -> Place
        requires { i < length self.now }
        ensures { result ≡ vertex self.now i }
    {
        self.vertices[i]
    }

    /// The ends of edge `i`: vertex `i`, and the vertex after it. The last edge ends at vertex 0.
    pub fn edge(&self, i: usize) -> (Place, Place)
        requires { i < length self.now }
        ensures start { result.0 ≡ vertex self.now i }
        ensures end { result.1 ≡ vertex self.now (polygons.next_of (length self.now) i) }
    {
        let next = next_of(self.vertices.len(), i);
        (self.vertices[i], self.vertices[next])
    }

    /// The bounding box, in grid units.
    pub fn bounds(&self) -> Extent
        ensures value { result ≡ box_of self.now }
        ensures polygon { IsPolygon self.now }
    {
        self.bounds
    }

    /// Whether the polygon holds `p`: no side of `p` is below 0.
    pub fn covers(&self, p: Pt) -> bool
        ensures { result ≡ polygons.covers self.now (point_of p) }
    {
        let vertices = self.vertices.as_slice();
        for i in 0..vertices.len() {
            if side_at(vertices, i, p) < 0 {
                return false;
            }
        }
        true
    }

    /// Whether the polygon holds `p` in its interior: every side of `p` is above 0.
    pub fn covers_inside(&self, p: Pt) -> bool
        ensures { result ≡ polygons.covers_inside self.now (point_of p) }
    {
        let vertices = self.vertices.as_slice();
        for i in 0..vertices.len() {
            if side_at(vertices, i, p) <= 0 {
                return false;
            }
        }
        true
    }
}

/// The place in the list of the vertex after vertex `i` of `count`.
pub(crate) fn next_of(count: usize, i: usize) -> usize
    requires { i < count }
    ensures value { result ≡ polygons.next_of count i }
    ensures within { result < count }
{
    if i + 1 == count { 0 } else { i + 1 }
}

/// The side of `p` on edge `i`.
pub(crate) fn side_at(vertices: &[Place], i: usize, p: Pt) -> i128
    requires { i < length vertices.now }
    ensures { result ≡ points.side (vertex vertices.now i)
        (vertex vertices.now (polygons.next_of (length vertices.now) i)) (point_of p) }
{
    side(vertices[i], vertices[next_of(vertices.len(), i)], p)
}
