//! Whether a triangle is held by its owner, or lies beyond a side of the tile.

ghost use Rattle.std.specs.Prelude.{◌≡◌, ◌<◌, ◌^◌, ◌-ℤ◌, ◌*ℤ◌, int_lt, unsigned_abs};
ghost use Rattle.std.specs.List.{list_all};
ghost use Rattle.siting_definitions.specs.Polygon as polygons;
ghost use Rattle.edge_chain.specs.Limits.{IsCoordinate};
ghost use Rattle.edge_chain.specs.Piece.{at};
ghost use Rattle.edge_chain.specs.Triangle as triangles;
ghost use Rattle.edge_chain.specs.Triangle.{corners};
ghost use Rattle.cover_check.specs.Cover as covers;
ghost use Rattle.cover_check.specs.Verdict as verdicts;

use crate::faults::CoverFault;
use crate::shapes::{Owned, Ring, Tile, Triangle};
use edge_chain::{Vertex, covers};

/// Whether all corners lie strictly to the left of the line at `x`.
fn is_left(t: Triangle, x: i64) -> bool
    ensures { result ≡ list_all (λ v. int_lt v.x x) (corners t) }
{
    t.a.x < x && t.b.x < x && t.c.x < x
}

/// Whether all corners lie strictly to the right of the line at `x`.
fn is_right(t: Triangle, x: i64) -> bool
    ensures { result ≡ list_all (λ v. int_lt x v.x) (corners t) }
{
    x < t.a.x && x < t.b.x && x < t.c.x
}

/// Whether all corners lie strictly below the line at `y`.
fn is_below(t: Triangle, y: i64) -> bool
    ensures { result ≡ list_all (λ v. int_lt v.y y) (corners t) }
{
    t.a.y < y && t.b.y < y && t.c.y < y
}

/// Whether all corners lie strictly above the line at `y`.
fn is_above(t: Triangle, y: i64) -> bool
    ensures { result ≡ list_all (λ v. int_lt y v.y) (corners t) }
{
    y < t.a.y && y < t.b.y && y < t.c.y
}

/// Whether a triangle lies strictly beyond one side of a tile.
fn is_beyond(tile: Tile, t: Triangle) -> bool
    ensures { result ≡ covers.is_beyond tile t }
{
    is_left(t, tile.x0) | is_right(t, tile.x1) | is_below(t, tile.y0) | is_above(t, tile.y1)
}

/// Whether a convex ring holds all corners of a triangle.
fn holds_corners(ring: &[Vertex], t: Triangle) -> bool
    ensures { result ≡ list_all (λ v. polygons.covers ring.now (at v)) (corners t) }
{
    covers(ring, t.a) && covers(ring, t.b) && covers(ring, t.c)
}

/// Why a triangle on a line isn't held, by its owner among these polygons.
fn owner_fault(
    tile: Tile,
    polygons: &[Ring],
    line: u64,
    t: Triangle,
    owner: Option<u32>,
) -> Option<CoverFault>
    ensures { result ≡ verdicts.owner_fault tile polygons.now line t owner }
{
    match owner {
        None => {
            if is_beyond(tile, t) {
                None
            } else {
                Some(CoverFault::Tile(line))
            }
        }
        Some(n) => {
            if n as usize >= polygons.len() {
                return Some(CoverFault::Owner(line));
            }
            if holds_corners(polygons[n as usize].vertices(), t) {
                None
            } else {
                Some(CoverFault::Triangle(line))
            }
        }
    }
}

/// The way from one coordinate to another.
fn way(from: i64, to: i64) -> i64
    requires from { IsCoordinate from }
    requires to { IsCoordinate to }
    ensures value { result ≡ to -ℤ from }
    ensures size { unsigned_abs result < 2 ^ 44 }
{
    to - from
}

/// The product of two ways.
fn product(a: i64, b: i64) -> i128
    requires a { unsigned_abs a < 2 ^ 44 }
    requires b { unsigned_abs b < 2 ^ 44 }
    ensures value { result ≡ a *ℤ b }
    ensures size { unsigned_abs result < 2 ^ 90 }
{
    a as i128 * b as i128
}

/// Whether the corners of a triangle stand counter-clockwise.
fn is_counter_clockwise(t: Triangle) -> bool
    ensures { result ≡ triangles.is_counter_clockwise t }
{
    let (a, b, c) = (t.a, t.b, t.c);
    let left = product(way(a.x, b.x), way(a.y, c.y));
    let right = product(way(a.y, b.y), way(a.x, c.x));
    left > right
}

/// The fault of a triangle, if it has one: only a counter-clockwise one has to be held.
fn triangle_fault(tile: Tile, polygons: &[Ring], owned: Owned) -> Option<CoverFault>
    ensures { result ≡ verdicts.triangle_fault tile polygons.now owned }
{
    if is_counter_clockwise(owned.triangle) {
        owner_fault(tile, polygons, owned.line, owned.triangle, owned.owner)
    } else {
        None
    }
}

/// The fault of the first triangle with one.
pub(crate) fn first_fault(tile: Tile, polygons: &[Ring], all: &[Owned]) -> Option<CoverFault>
    ensures { result ≡ verdicts.first_fault tile polygons.now all.now }
{
    for owned in all {
        let fault = triangle_fault(tile, polygons, *owned);
        if fault.is_some() {
            return fault;
        }
    }
    None
}
