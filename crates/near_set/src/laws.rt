//! Laws of near sets. Each function here does nothing, and its clauses are the law.

ghost use Rattle.std.specs.Prelude.{◌≡◌, ◌≢◌, ℕ, ◌+◌, ◌<◌, ◌≤◌, ℤ, pos, ◌+ℤ◌, ◌≤ℤ◌, true, not};
ghost use Rattle.std.specs.Prelude.{[], filter, count_by, Some, All};
ghost use Rattle.siting_definitions.specs.Point.{Point, point_of};
ghost use Rattle.siting_definitions.specs.Instance.{Instance, IsInstance};
ghost use Rattle.siting_definitions.specs.Permitted.{permits};
ghost use Rattle.siting_definitions.specs.Cost.{CostAtMost};
ghost use Rattle.siting_definitions.specs.Square.{Square, holds};
ghost use Rattle.siting_definitions.specs.Excluded.{is_excluded};
ghost use Rattle.siting_definitions.specs.Answer.{Answer, Best, IsValid};
ghost use Rattle.near_set.specs.Near.{LiesInOne, is_near, near_below, near_list, squares_below};
ghost use Rattle.near_set.specs.Ceiling.{NoneCostsMore, ceiling_of};

/// Each permitted rational point that costs at most `c` is held by exactly one square of the near
/// set of `c`.
pub fn near_points_are_held()
    ensures { (i : Instance) (c : ℤ) (depth : ℕ) (p : Point) → IsInstance i → depth ≤ 16
        → permits i p ≡ true → CostAtMost i p c
        → count_by (λ (s : Square). holds s p) (near_list i c depth) ≡ 1 }
{}

/// Where a valid answer has a site, the near set of its upper cost, and of any greater cost, holds
/// the site, so it isn't empty.
pub fn the_site_is_held()
    ensures held { (a : Answer) (best : Best) (slack : ℤ) (depth : ℕ) → IsValid a → depth ≤ 16
        → a.head.best ≡ Some best → pos 0 ≤ℤ slack
        → count_by (λ (s : Square). holds s (point_of best.site))
        (near_list a.head.instance (best.upper +ℤ slack) depth) ≡ 1 }
    ensures some { (a : Answer) (best : Best) (slack : ℤ) (depth : ℕ) → IsValid a → depth ≤ 16
        → a.head.best ≡ Some best → pos 0 ≤ℤ slack
        → near_list a.head.instance (best.upper +ℤ slack) depth ≢ [] }
{}

/// The near set of a greater cost has all squares of the other's, in the same order: those of its
/// own that are near at the lesser cost.
pub fn greater_costs_have_larger_sets()
    ensures { (i : Instance) (c d : ℤ) (depth : ℕ) → c ≤ℤ d
        → near_list i c depth ≡ filter (is_near i c) (near_list i d depth) }
{}

/// Each square of the near set one level deeper lies in one of the near set.
pub fn deeper_squares_lie_in_the_set()
    ensures { (i : Instance) (c : ℤ) (depth : ℕ) → depth < 16
        → All (LiesInOne (near_list i c depth)) (near_list i c (depth + 1)) }
{}

/// Of a square of which no point costs more than `c`, all squares so many levels below are near but
/// the excluded ones.
pub fn squares_below_a_cheap_one_are_near()
    ensures { (i : Instance) (c : ℤ) (s : Square) (n : ℕ) → n ≤ s.level → NoneCostsMore i s c
        → near_below i c n s ≡ filter (λ t. not (is_excluded i t)) (squares_below n s) }
{}

/// No point of a closed square costs more than the square's ceiling.
pub fn no_point_costs_more_than_the_ceiling()
    ensures { (i : Instance) (s : Square) → NoneCostsMore i s (ceiling_of i s) }
{}
