//! The coarse and the fine bound of a square.

ghost use Rattle.std.specs.Prelude.{◌≡◌, true};
ghost use Rattle.siting_definitions.specs.Point.{Point};
ghost use Rattle.siting_definitions.specs.Cost.{CostAtLeast};
ghost use Rattle.siting_definitions.specs.Square.{holds_closed};
ghost use Rattle.siting_definitions.specs.Bounds.{coarse_of, fine_of};
ghost use Rattle.objectives.specs.Limits.{IsCost};

use crate::passes::{total_of, totals_of};
use crate::radii::{BoundRadii, CoarseRadii, FineRadii};
use crate::rounding::round_down;
use dyadic_square::Square;
use site_model::Instance;

/// The coarse bound of a square, in cost units: no point of the closed square costs less. It takes
/// whole roots in grid units. It is at most 7,712 * 10^15 in size, so below 2^63.
pub fn coarse(instance: &Instance, sq: Square) -> i64
    ensures value { result ≡ coarse_of instance.now sq }
    ensures bound { (p : Point) → holds_closed sq p ≡ true → CostAtLeast instance.now p result }
    ensures size { IsCost result }
{
    total_of(instance, &CoarseRadii(sq)) as i64
}

/// The fine bound of a square, in cost units: no point of the closed square costs less. It takes
/// roots in units of 1/UNIT of a grid unit. It is at most 7,712 * 10^15 in size, so below 2^63.
pub fn fine(instance: &Instance, sq: Square) -> i64
    ensures value { result ≡ fine_of instance.now sq }
    ensures bound { (p : Point) → holds_closed sq p ≡ true → CostAtLeast instance.now p result }
    ensures size { IsCost result }
{
    round_down(total_of(instance, &FineRadii(sq)))
}

/// The coarse and the fine bound of a square, in cost units, in one pass over the points. Each is
/// at most 7,712 * 10^15 in size, so below 2^63.
pub fn coarse_and_fine(instance: &Instance, sq: Square) -> (i64, i64)
    ensures coarse { result.0 ≡ coarse_of instance.now sq }
    ensures fine { result.1 ≡ fine_of instance.now sq }
    ensures coarse_size { IsCost result.0 }
    ensures fine_size { IsCost result.1 }
{
    let (coarse, fine) = totals_of(instance, &BoundRadii(sq));
    (coarse as i64, round_down(fine))
}
