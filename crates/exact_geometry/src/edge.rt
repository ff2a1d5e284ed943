//! The side of an edge on which a point lies.

ghost use Rattle.std.specs.Prelude.{◌≡◌, ◌^◌, ◌*◌, ◌<◌, ◌≤◌, pos, ◌-ℤ◌, ◌*ℤ◌, unsigned_abs};
ghost use Rattle.siting_definitions.specs.declared.TheConstants.{UNIT};
ghost use Rattle.siting_definitions.specs.Instance.{IsCoordinate};
ghost use Rattle.siting_definitions.specs.Point.{point_of};
ghost use Rattle.siting_definitions.specs.Point as points;
ghost use Rattle.exact_geometry.specs.Limits.{IsGridCoordinate};

use crate::point::{Place, Pt};
use siting_definitions::UNIT;

/// The way from one coordinate to another, in lengths.
fn way(from: i32, to: i32) -> i64
    requires from { IsCoordinate from }
    requires to { IsCoordinate to }
    ensures value { result ≡ to -ℤ from }
    ensures size { unsigned_abs result ≤ 2000000 }
{
    to as i64 - from as i64
}

/// The way from a coordinate in lengths to one in grid units, in grid units.
fn way_on_grid(from: i32, to: i64) -> i64
    requires from { IsCoordinate from }
    requires to { IsGridCoordinate to }
    ensures value { result ≡ to -ℤ pos UNIT *ℤ from }
    ensures size { unsigned_abs result < 2 ^ 40 }
{
    to - UNIT as i64 * from as i64
}

/// The product of a way in lengths and one in grid units.
fn product(a: i64, b: i64) -> i64
    requires a { unsigned_abs a ≤ 2000000 }
    requires b { unsigned_abs b < 2 ^ 40 }
    ensures value { result ≡ a *ℤ b }
    ensures size { unsigned_abs result < 2 ^ 61 }
{
    a * b
}

/// The side of `p` on the edge from `a` to `b`, in lengths times grid units: above 0 to the left of
/// the edge, 0 on its line, below 0 to the right. It is
/// `(bx - ax)(py - UNIT ay) - (by - ay)(px - UNIT ax)`, below 2^62 in size.
pub fn side(a: Place, b: Place, p: Pt) -> i128
    ensures value { result ≡ points.side a b (point_of p) }
    ensures size { unsigned_abs result < 2 ^ 62 }
{
    let left = product(way(a.x, b.x), way_on_grid(a.y, p.y));
    let right = product(way(a.y, b.y), way_on_grid(a.x, p.x));
    (left - right) as i128
}
