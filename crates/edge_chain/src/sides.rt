//! The side of an edge on which a point lies.

ghost use Rattle.std.specs.Prelude.{◌≡◌, ◌^◌, ◌*◌, ◌<◌, ◌≤◌, pos, ◌-ℤ◌, ◌*ℤ◌, unsigned_abs};
ghost use Rattle.siting_definitions.specs.Point as points;
ghost use Rattle.edge_chain.specs.Limits.{IsCoordinate};
ghost use Rattle.edge_chain.specs.Piece.{at};
ghost use Rattle.edge_chain.specs.Thirds.{thirds};

use crate::shapes::{Edge, Thirds, Vertex};

/// The way from one coordinate to another.
fn way(from: i64, to: i64) -> i64
    requires from { IsCoordinate from }
    requires to { IsCoordinate to }
    ensures value { result ≡ to -ℤ from }
    ensures size { unsigned_abs result < 2 ^ 44 }
{
    to - from
}

/// The way from a coordinate to one in thirds, in thirds.
fn way_in_thirds(from: i64, to: i64) -> i64
    requires from { IsCoordinate from }
    requires to { unsigned_abs to ≤ 3298534883328 }
    ensures value { result ≡ to -ℤ pos 3 *ℤ from }
    ensures size { unsigned_abs result < 2 ^ 44 }
{
    to - 3 * from
}

/// The product of two ways.
fn product(a: i64, b: i64) -> i128
    requires a { unsigned_abs a < 2 ^ 44 }
    requires b { unsigned_abs b < 2 ^ 44 }
    ensures value { result ≡ a *ℤ b }
    ensures size { unsigned_abs result < 2 ^ 90 }
{
    a as i128 * b as i128
}

/// The side of a vertex on an edge: above 0 to the left of it, 0 on its line, below 0 to the right.
pub(crate) fn side(e: Edge, v: Vertex) -> i128
    ensures { result ≡ points.side e.0 e.1 (at v) }
{
    let left = product(way(e.start.x, e.end.x), way(e.start.y, v.y));
    let right = product(way(e.start.y, e.end.y), way(e.start.x, v.x));
    left - right
}

/// The side of a point in thirds on an edge, in thirds.
pub(crate) fn side_in_thirds(e: Edge, p: Thirds) -> i128
    ensures { result ≡ points.side e.0 e.1 (thirds p) }
{
    let left = product(way(e.start.x, e.end.x), way_in_thirds(e.start.y, p.y));
    let right = product(way(e.start.y, e.end.y), way_in_thirds(e.start.x, p.x));
    left - right
}
