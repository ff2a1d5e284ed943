//! Whether a bound is within the gap of a cost.

ghost use Rattle.std.specs.Prelude.{◌≡◌, ◌+ℤ◌, int_le};
ghost use Rattle.siting_definitions.specs.Marks as marks;

/// Whether there is a least upper cost, and the bound with the gap reaches it: it is at most their
/// sum, all in cost units. Any numbers will do, since the sum is taken in 128 bits.
pub fn reaches(least: Option<i64>, bound: i64, gap: i64) -> bool
    ensures { result ≡ marks.reaches least (bound +ℤ gap) }
{
    match least {
        None => false,
        Some(upper) => is_at_most(upper, bound, gap),
    }
}

/// Whether a cost is at most a bound with the gap, all in cost units.
fn is_at_most(upper: i64, bound: i64, gap: i64) -> bool
    ensures { result ≡ int_le upper (bound +ℤ gap) }
{
    upper as i128 <= bound as i128 + gap as i128
}
