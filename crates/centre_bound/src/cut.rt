//! The cut of a square: one pass over the points serves all four corners.

ghost use Rattle.std.specs.Prelude.{◌≡◌, ◌+◌, ◌*◌, ◌^◌, ◌<◌, ◌≤◌, pos, ◌+ℤ◌, ◌-ℤ◌, ◌*ℤ◌, ◌≤ℤ◌};
ghost use Rattle.std.specs.Prelude.{unsigned_abs, sum_by};
ghost use Rattle.siting_definitions.specs.declared.TheConstants.{WEIGHT_LIMIT};
ghost use Rattle.siting_definitions.specs.Instance as instances;
ghost use Rattle.siting_definitions.specs.Instance.{DemandPt};
ghost use Rattle.siting_definitions.specs.Square.{centre_of};
ghost use Rattle.dist_bounds.specs.Limits.{IsWithinSquares, longest};
ghost use Rattle.centre_bound.specs.Cut as cuts;
ghost use Rattle.centre_bound.specs.Cut.{cut_of, dot};
ghost use Rattle.centre_bound.specs.Terms.{slope_of, sum_over, term_at};
ghost use Rattle.centre_bound.specs.Sizes.{IsSmall};

use crate::direction::{DIRECTION_LENGTH, direction, scalar_product, way_to};
use dyadic_square::Square;
use exact_geometry::{Place, Pt};
use objectives::fine_radius;
use site_model::{DemandPt, Instance};

/// What a point, or all of them, add at the centre of a square, in units of 1/2^20 cost units, and
/// how fast that grows to the right and upwards, by grid unit.
#[derive(Clone, Copy)]
struct Term {
    at_centre: i128,
    right: i64,
    upper: i64,
}

/// The cut of a square of level above 0, in cost units.
pub(crate) fn cut(instance: &Instance, square: Square) -> i128
    requires { 0 < square.level }
    ensures value { result ≡ cut_of instance.now square }
    ensures most { result ≤ℤ pos (WEIGHT_LIMIT * longest) }
{
    let centre = square.centre();
    let sum = sum_of_terms(instance.points(), square, centre);
    least_at_corners(sum, square.quarter(0).side_len()).div_euclid(DIRECTION_LENGTH as i128)
}

/// The least of what all points add at the corners of a square, in units of 1/2^20 cost units, from
/// what they add at its centre. `half` is half the side, in grid units.
fn least_at_corners(sum: Term, half: i64) -> i128
    requires sum { IsSmall sum (pos WEIGHT_LIMIT) }
    requires least { pos 0 ≤ℤ half }
    requires most { half ≤ℤ pos (2 ^ 37) }
    ensures { result ≡ sum.at_centre
        -ℤ half *ℤ pos (unsigned_abs sum.right + unsigned_abs sum.upper) }
{
    sum.at_centre - rise(half, sum.right.unsigned_abs() + sum.upper.unsigned_abs())
}

/// How far it is from the centre to the lowest corner: half a side times the sizes of both slopes.
fn rise(half: i64, slopes: u64) -> i128
    requires least { pos 0 ≤ℤ half }
    requires most { half ≤ℤ pos (2 ^ 37) }
    requires slopes { slopes ≤ 2 ^ 46 }
    ensures value { result ≡ half *ℤ pos slopes }
    ensures size { unsigned_abs result ≤ 2 ^ 83 }
{
    half as i128 * slopes as i128
}

/// The sum of the terms of these points.
fn sum_of_terms(points: &[DemandPt], square: Square, centre: Pt) -> Term
    requires weight { sum_by (λ (d : DemandPt). unsigned_abs d.w) points.now ≤ WEIGHT_LIMIT }
    requires level { 0 < square.level }
    requires centre { centre ≡ centre_of square }
    ensures at_centre { result.at_centre ≡ sum_over (term_at square centre) points.now }
    ensures right { result.right ≡ sum_over (λ d. (slope_of square d).x) points.now }
    ensures upper { result.upper ≡ sum_over (λ d. (slope_of square d).y) points.now }
    ensures small { IsSmall result (pos WEIGHT_LIMIT) }
{
    let mut sum = Term {
        at_centre: 0,
        right: 0,
        upper: 0,
    };
    for point in points {
        sum = add_terms(sum, term_of(square, centre, *point));
    }
    sum
}

/// The sum of two terms.
#[inline(always)]
fn add_terms(a: Term, b: Term) -> Term
    requires a { IsSmall a (pos WEIGHT_LIMIT) }
    requires b { IsSmall b (pos WEIGHT_LIMIT) }
    ensures at_centre { result.at_centre ≡ a.at_centre +ℤ b.at_centre }
    ensures right { result.right ≡ a.right +ℤ b.right }
    ensures upper { result.upper ≡ a.upper +ℤ b.upper }
{
    Term {
        at_centre: a.at_centre + b.at_centre,
        right: a.right + b.right,
        upper: a.upper + b.upper,
    }
}

/// What a point adds at the centre of a square.
#[inline(always)]
fn term_of(square: Square, centre: Pt, point: DemandPt) -> Term
    requires level { 0 < square.level }
    requires centre { centre ≡ centre_of square }
    ensures at_centre { result.at_centre ≡ term_at square centre point }
    ensures right { result.right ≡ (slope_of square point).x }
    ensures upper { result.upper ≡ (slope_of square point).y }
    ensures small { IsSmall result point.w }
    ensures weight { unsigned_abs point.w ≤ WEIGHT_LIMIT }
{
    if is_straight(point) {
        straight_term(place_of(point), centre, point.w)
    } else {
        Term {
            at_centre: product(point.w, (16 * fine_radius(square, point)) as i64),
            right: 0,
            upper: 0,
        }
    }
}

/// Whether the point's distance is cut: it attracts, and it has no cutoff.
fn is_straight(point: DemandPt) -> bool
    ensures { result ≡ cuts.is_straight point }
{
    point.w > 0 && point.cutoff.is_none()
}

/// The place of a demand point.
fn place_of(point: DemandPt) -> Place
    ensures { result ≡ instances.place_of point }
{
    Place::of(point.x, point.y)
}

/// What a straight point of weight `w` adds at the centre.
#[inline(always)]
fn straight_term(place: Place, centre: Pt, w: i64) -> Term
    requires x { IsWithinSquares centre.x }
    requires y { IsWithinSquares centre.y }
    requires w { unsigned_abs w ≤ WEIGHT_LIMIT }
    ensures at_centre { result.at_centre
        ≡ w *ℤ dot (cuts.direction place centre) (cuts.way_to place centre) }
    ensures right { result.right ≡ w *ℤ (cuts.direction place centre).x }
    ensures upper { result.upper ≡ w *ℤ (cuts.direction place centre).y }
    ensures small { IsSmall result w }
{
    let direction = direction(place, centre);
    let along = scalar_product(direction, way_to(place, centre));
    Term {
        at_centre: product(w, along),
        right: slope(w, direction.x),
        upper: slope(w, direction.y),
    }
}

/// A weight times a number.
fn product(w: i64, n: i64) -> i128
    ensures { result ≡ w *ℤ n }
{
    w as i128 * n as i128
}

/// A weight times a coordinate of a direction.
fn slope(w: i64, n: i64) -> i64
    requires w { unsigned_abs w ≤ WEIGHT_LIMIT }
    requires n { unsigned_abs n ≤ 1048576 }
    ensures { result ≡ w *ℤ n }
{
    w * n
}
