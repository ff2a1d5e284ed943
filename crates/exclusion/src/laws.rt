//! Laws of excluded squares. Each is a clause of a function that does nothing.

ghost use Rattle.std.specs.Prelude.{◌≡◌, ◌<◌, ℕ, true};
ghost use Rattle.siting_definitions.specs.Point.{Point};
ghost use Rattle.siting_definitions.specs.Instance.{Instance, IsInstance};
ghost use Rattle.siting_definitions.specs.Permitted.{permits};
ghost use Rattle.siting_definitions.specs.Square.{Square, holds_closed, quarter_of};
ghost use Rattle.siting_definitions.specs.Excluded.{is_excluded};

/// No permitted rational point lies in an excluded closed square.
pub fn an_excluded_square_holds_no_permitted_point()
    ensures { (i : Instance) (s : Square) (p : Point)
        → IsInstance i → is_excluded i s ≡ true → holds_closed s p ≡ true → ¬ (permits i p ≡ true) }
{}

/// The quarters of an excluded square are excluded.
pub fn quarters_of_an_excluded_square_are_excluded()
    ensures { (i : Instance) (s : Square) (k : ℕ)
        → 0 < s.level → is_excluded i s ≡ true → is_excluded i (quarter_of s k) ≡ true }
{}
