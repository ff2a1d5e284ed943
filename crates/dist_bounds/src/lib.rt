//! Squared distances from a place: the least and the greatest to a closed square of the grid, and
//! the one to a grid point.
//!
//! All are exact, in grid units squared, of which 2^32 make a square length.
#![tactic(auto)]

ghost use Rattle.std.specs.Prelude.{◌≡◌, ◌*◌, ◌+◌, ◌^◌, ◌≤◌, pos};
ghost use Rattle.std.specs.Prelude.{◌-ℤ◌, ◌*ℤ◌, ◌≤ℤ◌, unsigned_abs, max};
ghost use Rattle.std.specs.Prelude.{true, false, if◌then◌else◌};
ghost use Rattle.std.specs.Int.{int_max};
ghost use Rattle.siting_definitions.specs.declared.TheConstants.{COORDINATE_LIMIT, UNIT};
ghost use Rattle.siting_definitions.specs.Point.{Point, point_of};
ghost use Rattle.siting_definitions.specs.Instance.{IsCoordinate};
ghost use Rattle.siting_definitions.specs.Cost.{distance2};
ghost use Rattle.siting_definitions.specs.Square.{holds_closed};
ghost use Rattle.siting_definitions.specs.Bounds as bounds;
ghost use Rattle.dist_bounds.specs.Limits.{IsWithinSquares, longest, longest_way};

#[cfg(test)]
mod tests;

use dyadic_square::Square;
use exact_geometry::{Place, Pt};
use siting_definitions::UNIT;

/// The least squared distance from `a` to the closed square, in grid units squared.
pub fn near2(sq: Square, a: Place) -> u128
    ensures value { result ≡ bounds.near2 sq a }
    ensures encloses { (p : Point) → holds_closed sq p ≡ true
        → result * (p.q * p.q) ≤ 2 ^ 32 * distance2 a p }
    ensures size { result ≤ longest * longest }
{
    near_or_far2(sq, a, false)
}

/// The greatest squared distance from `a` to the closed square, in grid units squared.
pub fn far2(sq: Square, a: Place) -> u128
    ensures value { result ≡ bounds.far2 sq a }
    ensures encloses { (p : Point) → holds_closed sq p ≡ true
        → 2 ^ 32 * distance2 a p ≤ result * (p.q * p.q) }
    ensures size { result ≤ longest * longest }
{
    near_or_far2(sq, a, true)
}

/// The greatest squared distance from `a` to the closed square if `far`, and else the least, in
/// grid units squared.
#[inline(always)]
pub fn near_or_far2(sq: Square, a: Place, far: bool) -> u128
    ensures value { result ≡ if far then bounds.far2 sq a else bounds.near2 sq a }
    ensures size { result ≤ longest * longest }
{
    let side = sq.side_len();
    sum_of_squares(
        way_to_end(sq.x, sq.x + side, on_grid(a.x), far),
        way_to_end(sq.y, sq.y + side, on_grid(a.y), far),
    )
}

/// The squared distance from `a` to the grid point `z`, in grid units squared. Each coordinate of
/// `z` is at most 2^38 in size.
pub fn distance2(z: Pt, a: Place) -> u128
    requires x { IsWithinSquares z.x }
    requires y { IsWithinSquares z.y }
    ensures value { result ≡ distance2 a (point_of z) }
    ensures size { result ≤ longest * longest }
{
    sum_of_squares(way(z.x, on_grid(a.x)), way(z.y, on_grid(a.y)))
}

/// A coordinate in lengths, in grid units.
#[inline(always)]
fn on_grid(v: i32) -> i64
    requires { IsCoordinate v }
    ensures value { result ≡ pos UNIT *ℤ v }
    ensures size { unsigned_abs result ≤ UNIT * COORDINATE_LIMIT }
{
    UNIT as i64 * v as i64
}

/// How far `a` lies outside of the span from `low` to `high`, in grid units.
#[inline(always)]
fn way_outside(low: i64, high: i64, a: i64) -> u64
    requires low { IsWithinSquares low }
    requires high { IsWithinSquares high }
    requires a { unsigned_abs a ≤ UNIT * COORDINATE_LIMIT }
    ensures value { result ≡ unsigned_abs (int_max (pos 0) (int_max (low -ℤ a) (a -ℤ high))) }
    ensures size { result ≤ longest_way }
{
    (low - a).max(a - high).max(0) as u64
}

/// How far `a` lies from the farther end of the span from `low` to `high` if `far`, and else how
/// far outside of the span, in grid units. The one is the other with the ends exchanged.
#[inline(always)]
fn way_to_end(low: i64, high: i64, a: i64, far: bool) -> u64
    requires low { IsWithinSquares low }
    requires high { IsWithinSquares high }
    requires order { low ≤ℤ high }
    requires a { unsigned_abs a ≤ UNIT * COORDINATE_LIMIT }
    ensures far { far ≡ true
        → result ≡ max (unsigned_abs (low -ℤ a)) (unsigned_abs (high -ℤ a)) }
    ensures near { far ≡ false
        → result ≡ unsigned_abs (int_max (pos 0) (int_max (low -ℤ a) (a -ℤ high))) }
    ensures size { result ≤ longest_way }
{
    way_outside(one_of(far, high, low), one_of(far, low, high), a)
}

/// The first number or the second.
#[inline(always)]
fn one_of(is_first: bool, first: i64, second: i64) -> i64
    requires first { IsWithinSquares first }
    requires second { IsWithinSquares second }
    ensures first { is_first ≡ true → result ≡ first }
    ensures second { is_first ≡ false → result ≡ second }
    ensures size { IsWithinSquares result }
{
    if is_first { first } else { second }
}

/// How far two coordinates are apart, in grid units.
#[inline(always)]
fn way(z: i64, a: i64) -> u64
    requires z { IsWithinSquares z }
    requires a { unsigned_abs a ≤ UNIT * COORDINATE_LIMIT }
    ensures value { result ≡ unsigned_abs (z -ℤ a) }
    ensures size { result ≤ longest_way }
{
    z.abs_diff(a)
}

/// The sum of two squares.
#[inline(always)]
fn sum_of_squares(a: u64, b: u64) -> u128
    requires a { a ≤ longest_way }
    requires b { b ≤ longest_way }
    ensures value { result ≡ a * a + b * b }
    ensures size { result ≤ longest * longest }
{
    a as u128 * a as u128 + b as u128 * b as u128
}
