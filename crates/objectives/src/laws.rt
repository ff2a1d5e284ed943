//! Laws of bounds and costs. Each function here does nothing, and its clauses are the law.

ghost use Rattle.std.specs.Prelude.{◌≡◌, ℕ, ◌-◌, ◌<◌, ℤ, pos, ◌+ℤ◌, ◌≤ℤ◌, true};
ghost use Rattle.siting_definitions.specs.Point.{Pt, Point, point_of};
ghost use Rattle.siting_definitions.specs.Instance.{Instance, IsInstance, weight};
ghost use Rattle.siting_definitions.specs.Cost.{CostAtLeast, CostAtMost};
ghost use Rattle.siting_definitions.specs.Square.{Square, holds_closed, quarter_of};
ghost use Rattle.siting_definitions.specs.Bounds.{coarse_of, fine_of, lower_of, upper_of};
ghost use Rattle.siting_definitions.specs.Answer.{IsSite};
ghost use Rattle.objectives.specs.Limits.{IsCost};

/// No rational point of the closed square costs less than the fine bound.
pub fn fine_is_a_bound()
    ensures { (i : Instance) (s : Square) (p : Point)
        → holds_closed s p ≡ true → CostAtLeast i p (fine_of i s) }
{}

/// The coarse bound is at most the fine one, which is less than the sum of the
/// weights' sizes above it.
pub fn coarse_is_below_fine()
    ensures below { (i : Instance) (s : Square) → coarse_of i s ≤ℤ fine_of i s }
    ensures near { (i : Instance) (s : Square)
        → IsInstance i → fine_of i s ≤ℤ (coarse_of i s +ℤ pos (weight i.points - 1)) }
{}

/// The fine bound of a quarter is at least that of its square.
pub fn quarters_are_bounded_higher()
    ensures { (i : Instance) (s : Square) (k : ℕ)
        → 0 < s.level → fine_of i s ≤ℤ fine_of i (quarter_of s k) }
{}

/// The lower and the upper cost of a site enclose its cost.
pub fn costs_enclose()
    ensures at_least { (i : Instance) (z : Pt) → CostAtLeast i (point_of z) (lower_of i z) }
    ensures at_most { (i : Instance) (z : Pt) → CostAtMost i (point_of z) (upper_of i z) }
{}

/// A number that is at most a point's cost is at most each number that is at least its cost.
pub fn costs_are_ordered()
    ensures { (i : Instance) (p : Point) (b c : ℤ) → CostAtLeast i p b → CostAtMost i p c → b ≤ℤ c }
{}

/// The upper cost of a site of an instance is at most 7,712 * 10^15 cost
/// units in size, so below 2^63.
pub fn costs_are_small()
    ensures { (i : Instance) (z : Pt) → IsInstance i → IsSite z → IsCost (upper_of i z) }
{}
