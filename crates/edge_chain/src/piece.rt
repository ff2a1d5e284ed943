//! Convex pieces.

ghost use Rattle.std.specs.Prelude.{◌≡◌, ◌≤◌, ◌<◌, ◌&&◌, length};
ghost use Rattle.std.specs.List.{list_any, list_all};
ghost use Rattle.edge_chain.specs.Chain as chains;
ghost use Rattle.siting_definitions.specs.Polygon as polygons;
ghost use Rattle.siting_definitions.specs.Polygon.{vertex};
ghost use Rattle.edge_chain.specs.Piece as pieces;
ghost use Rattle.edge_chain.specs.Piece.{at};
ghost use Rattle.edge_chain.specs.Thirds.{thirds};

use crate::shapes::{Edge, Thirds, Vertex};
use crate::sides::side;

/// Edge `i` of a polygon: from vertex `i` to the next one, and from the last to the first.
fn edge_at(piece: &[Vertex], i: usize) -> Edge
    requires { i < length piece.now }
    ensures { result ≡ (vertex piece.now i, vertex piece.now (polygons.next_of (length piece.now) i)) }
{
    let next = if i + 1 == piece.len() { 0 } else { i + 1 };
    Edge {
        start: piece[i],
        end: piece[next],
    }
}

/// Whether a vertex lies on the line of an edge or to its left.
fn is_left(e: Edge, v: Vertex) -> bool
    ensures { result ≡ pieces.is_left e (at v) }
{
    side(e, v) >= 0
}

/// Whether a vertex lies on the line of an edge or to its right.
fn is_right(e: Edge, v: Vertex) -> bool
    ensures { result ≡ pieces.is_right e (at v) }
{
    side(e, v) <= 0
}

/// Whether a convex polygon holds a vertex: no side of it is below 0.
pub fn covers(piece: &[Vertex], v: Vertex) -> bool
    ensures { result ≡ polygons.covers piece.now (at v) }
{
    for i in 0..piece.len() {
        if !is_left(edge_at(piece, i), v) {
            return false;
        }
    }
    true
}

/// Whether both ends of an edge lie on the line of another or to its right.
fn lies_right(line: Edge, e: Edge) -> bool
    ensures { result ≡ (pieces.is_right line (at e.0) && pieces.is_right line (at e.1)) }
{
    is_right(line, e.start) && is_right(line, e.end)
}

/// Whether both ends of an edge lie on or to the right of one line of a piece.
fn is_beyond(piece: &[Vertex], e: Edge) -> bool
    ensures { result ≡ list_any (λ (k : chains.Edge). pieces.is_right k (at e.0) && pieces.is_right k (at e.1))
        (polygons.edges piece.now) }
{
    for i in 0..piece.len() {
        if lies_right(edge_at(piece, i), e) {
            return true;
        }
    }
    false
}

/// Whether all corners of a piece lie on the line of an edge or to its left.
fn all_left(piece: &[Vertex], e: Edge) -> bool
    ensures { result ≡ list_all (λ v. pieces.is_left e (at v)) piece.now }
{
    piece.iter().all(|v| is_left(e, *v))
}

/// Whether all corners of a piece lie on the line of an edge or to its right.
fn all_right(piece: &[Vertex], e: Edge) -> bool
    ensures { result ≡ list_all (λ v. pieces.is_right e (at v)) piece.now }
{
    piece.iter().all(|v| is_right(e, *v))
}

/// Whether an edge stays out of a piece's interior: both its ends lie on or to the right of one line
/// of the piece, or all corners of the piece lie on or to one side of the edge's line.
pub fn is_clear(piece: &[Vertex], e: Edge) -> bool
    ensures { result ≡ pieces.is_clear piece.now e }
{
    is_beyond(piece, e) || all_left(piece, e) || all_right(piece, e)
}

/// The centroid of the first three corners, which lies in the piece's interior.
pub fn inner_point(piece: &[Vertex]) -> Thirds
    requires { 3 ≤ length piece.now }
    ensures { thirds result ≡ pieces.inner_point piece.now }
{
    let (a, b, c) = (piece[0], piece[1], piece[2]);
    Thirds {
        x: a.x + b.x + c.x,
        y: a.y + b.y + c.y,
    }
}
