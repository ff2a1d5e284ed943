//! Directions: whole vectors no longer than 2^20.

ghost use Rattle.std.specs.Prelude.{◌≡◌, ◌+◌, ◌*◌, ◌/◌, ◌^◌, ◌<◌, ◌≤◌, pos, ◌+ℤ◌, ◌-ℤ◌, ◌*ℤ◌};
ghost use Rattle.std.specs.Prelude.{unsigned_abs};
ghost use Rattle.siting_definitions.specs.Integer.{square_of};
ghost use Rattle.siting_definitions.specs.Point.{point_of};
ghost use Rattle.siting_definitions.specs.Instance.{IsCoordinate};
ghost use Rattle.siting_definitions.specs.Cost as costs;
ghost use Rattle.dist_bounds.specs.Limits.{IsWithinSquares, longest, longest_way};
ghost use Rattle.centre_bound.specs.Cut as cuts;

use dist_bounds::distance2;
use exact_geometry::{Place, Pt};
use root_enclosure::ceil_root;

/// The length that no direction is longer than.
pub(crate) const DIRECTION_LENGTH: u64 = 0x10_0000;

/// A way, in grid units, or a direction.
#[derive(Clone, Copy)]
pub(crate) struct Vector {
    pub(crate) x: i64,
    pub(crate) y: i64,
}

/// The way from a place to a grid point, in grid units.
#[inline(always)]
pub(crate) fn way_to(place: Place, point: Pt) -> Vector
    requires x { IsWithinSquares point.x }
    requires y { IsWithinSquares point.y }
    ensures x { result.x ≡ (cuts.way_to place point).x }
    ensures y { result.y ≡ (cuts.way_to place point).y }
    ensures x_size { unsigned_abs result.x ≤ longest_way }
    ensures y_size { unsigned_abs result.y ≤ longest_way }
{
    Vector {
        x: way_on_axis(place.x, point.x),
        y: way_on_axis(place.y, point.y),
    }
}

/// The way from a coordinate in lengths to one in grid units, in grid units.
#[inline(always)]
fn way_on_axis(a: i32, z: i64) -> i64
    requires a { IsCoordinate a }
    requires z { IsWithinSquares z }
    ensures value { result ≡ z -ℤ pos 65536 *ℤ a }
    ensures size { unsigned_abs result ≤ longest_way }
{
    z - 65536 * a as i64
}

/// The direction from a place to a grid point: DIRECTION_LENGTH times the way by its length,
/// which is rounded up.
#[inline(always)]
pub(crate) fn direction(place: Place, point: Pt) -> Vector
    requires x { IsWithinSquares point.x }
    requires y { IsWithinSquares point.y }
    ensures x { result.x ≡ (cuts.direction place point).x }
    ensures y { result.y ≡ (cuts.direction place point).y }
    ensures short { square_of result.x + square_of result.y ≤ 1048576 * 1048576 }
    ensures distance { costs.distance2 place (point_of point) ≤ longest * longest }
{
    let way = way_to(place, point);
    let length = ceil_root(distance2(point, place));
    let reciprocal = ONE / length.max(1);
    Vector {
        x: share(way.x, length, reciprocal),
        y: share(way.y, length, reciprocal),
    }
}

/// The scalar product of a direction and a way.
#[inline(always)]
pub(crate) fn scalar_product(direction: Vector, way: Vector) -> i64
    requires short { square_of direction.x + square_of direction.y ≤ 1048576 * 1048576 }
    requires x { unsigned_abs way.x ≤ longest_way }
    requires y { unsigned_abs way.y ≤ longest_way }
    ensures { result ≡ direction.x *ℤ way.x +ℤ direction.y *ℤ way.y }
{
    direction.x * way.x + direction.y * way.y
}

/// What a reciprocal takes for 1.
const ONE: u64 = 0x4000_0000_0000_0000;

/// DIRECTION_LENGTH times a way by a length, rounded towards 0, and 0 where the length is 0.
#[inline(always)]
fn share(way: i64, length: u64, reciprocal: u64) -> i64
    requires way { unsigned_abs way ≤ longest_way }
    requires length { length ≤ longest }
    ensures { result ≡ cuts.share way length }
{
    let size = way.unsigned_abs();
    let estimate = size.wrapping_mul(reciprocal) >> 42;
    let quotient = quotient_near(DIRECTION_LENGTH * size, length, estimate) as i64;
    if way < 0 { -quotient } else { quotient }
}

/// The quotient of two numbers, rounded down, and 0 where the divisor is 0. An estimate that is
/// neither it nor one less costs a division, and never a wrong answer.
#[inline(always)]
fn quotient_near(dividend: u64, divisor: u64, estimate: u64) -> u64
    requires divisor { divisor ≤ longest }
    requires estimate { estimate < 2 ^ 22 }
    ensures { result ≡ dividend / divisor }
{
    let product = estimate * divisor;
    if product <= dividend && dividend - product < 2 * divisor {
        estimate + (dividend - product >= divisor) as u64
    } else {
        quotient(dividend, divisor)
    }
}

/// The quotient of two numbers, rounded down, and 0 where the divisor is 0.
#[cold]
#[inline(never)]
fn quotient(dividend: u64, divisor: u64) -> u64
    ensures { result ≡ dividend / divisor }
{
    if divisor == 0 { 0 } else { dividend / divisor }
}
