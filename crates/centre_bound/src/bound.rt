//! The centre bound of a square.

ghost use Rattle.std.specs.Prelude.{◌≡◌, ◌*◌, pos, ◌≤ℤ◌, true};
ghost use Rattle.std.specs.Int.{int_max};
ghost use Rattle.siting_definitions.specs.declared.TheConstants.{WEIGHT_LIMIT};
ghost use Rattle.siting_definitions.specs.Point.{Point};
ghost use Rattle.siting_definitions.specs.Cost.{CostAtLeast};
ghost use Rattle.siting_definitions.specs.Square.{holds_closed};
ghost use Rattle.siting_definitions.specs.Bounds.{fine_of};
ghost use Rattle.dist_bounds.specs.Limits.{longest};
ghost use Rattle.objectives.specs.Limits.{IsCost};
ghost use Rattle.centre_bound.specs.Cut.{centre_bound_of};

use crate::cut::cut;
use dyadic_square::Square;
use objectives::fine;
use site_model::{Instance, Kind};

/// The centre bound of a square, in cost units: no point of the closed square costs less. It is the
/// greater of the fine bound and the cut; of the kind `max`, and of a square of level 0, it is the
/// fine bound. It is at most 7,712 * 10^15 in size, so below 2^63.
pub fn centre_bound(instance: &Instance, square: Square) -> i64
    ensures value { result ≡ centre_bound_of instance.now square }
    ensures bound { (p : Point) → holds_closed square p ≡ true → CostAtLeast instance.now p result }
    ensures size { IsCost result }
{
    bound_from_fine(instance, square, fine(instance, square))
}

/// The centre bound of a square whose fine bound is known, in cost units.
pub(crate) fn bound_from_fine(instance: &Instance, square: Square, fine: i64) -> i64
    requires { fine ≡ fine_of instance.now square }
    ensures value { result ≡ centre_bound_of instance.now square }
    ensures least { fine ≤ℤ result }
    ensures most { result ≤ℤ int_max fine (pos (WEIGHT_LIMIT * longest)) }
{
    if square.level == 0 {
        return fine;
    }
    match instance.kind() {
        Kind::Sum => greater_of(fine, cut(instance, square)),
        Kind::Max => fine,
    }
}

/// The greater of a fine bound and a cut, which is no greater than a cost can be.
fn greater_of(fine: i64, cut: i128) -> i64
    requires { cut ≤ℤ pos (WEIGHT_LIMIT * longest) }
    ensures { result ≡ int_max fine cut }
{
    if cut > fine as i128 { cut as i64 } else { fine }
}
