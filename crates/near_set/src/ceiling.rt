//! How far above its fine bound a point of a square may cost.

ghost use Rattle.std.specs.Prelude.{◌≡◌, ◌*◌, ◌^◌, ◌≤◌, pos, ◌+ℤ◌, int_le};
ghost use Rattle.near_set.specs.Ceiling.{diagonal_of, rise_of};

use dyadic_square::Square;
use objectives::steepness;
use site_model::Instance;

/// By how many cost units a point of the closed square costs more than the square's fine bound at
/// most.
pub(crate) fn rise_across(instance: &Instance, sq: Square) -> u64
    ensures { result ≡ rise_of instance.now sq }
{
    steepness(instance) * diagonal(sq) + 1
}

/// Whether a fine bound with this rise is at most a cost, all in cost units.
pub(crate) fn is_ceiling_within(bound: i64, rise: u64, cost: i64) -> bool
    ensures { result ≡ int_le (bound +ℤ pos rise) cost }
{
    bound as i128 + rise as i128 <= cost as i128
}

/// A whole number of grid units that is above the square's diagonal.
fn diagonal(sq: Square) -> u64
    ensures value { result ≡ diagonal_of sq }
    ensures size { result ≤ 2 ^ 38 }
{
    17 * sq.side_len().unsigned_abs() / 12 + 1
}
