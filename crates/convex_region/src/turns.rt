//! Whether a list of vertices is convex, in one pass over them.

ghost use Rattle.std.specs.Prelude.{◌<◌, ◌≤◌, ◌↔◌, ℕ, IsTrue, length};
ghost use Rattle.convex_region.specs.Dent.{IsDent};
ghost use Rattle.convex_region.specs.Turns.{IsLeft, TurnsLeft};

use exact_geometry::{Place, side};

/// Whether the list has no dent: each vertex in turn leaves the polygon of the
/// vertices up to it convex.
pub(crate) fn is_convex(vertices: &[Place]) -> bool
    ensures { IsTrue result ↔ ((i j : ℕ) → ¬ (IsDent vertices.now i j)) }
{
    for i in 2..vertices.len() {
        if !turns_left(vertices, i) {
            return false;
        }
    }
    true
}

/// Whether the polygon of the vertices up to vertex `i` turns left at vertex `i` and at the
/// vertices beside it.
fn turns_left(vertices: &[Place], i: usize) -> bool
    requires some { 2 ≤ i }
    requires within { i < length vertices.now }
    ensures { IsTrue result ↔ TurnsLeft vertices.now i }
{
    let (first, second) = (vertices[0], vertices[1]);
    let (before, previous, last) = (vertices[i - 2], vertices[i - 1], vertices[i]);
    is_left(before, previous, last)
        && is_left(previous, last, first)
        && is_left(last, first, second)
}

/// Whether `c` lies strictly to the left of the edge from `a` to `b`.
fn is_left(a: Place, b: Place, c: Place) -> bool
    ensures { IsTrue result ↔ IsLeft a b c }
{
    side(a, b, c.grid()) > 0
}
