//! Laws of sites. Each is a clause of a function that does nothing.

ghost use Rattle.std.specs.Prelude.{◌≡◌, [], Some, None};
ghost use Rattle.siting_definitions.specs.Point.{Pt};
ghost use Rattle.siting_definitions.specs.Instance.{Instance};
ghost use Rattle.siting_definitions.specs.Bounds.{upper_of};
ghost use Rattle.siting_definitions.specs.Sites.{candidates, opening_of};
ghost use Rattle.candidate_sites.specs.First.{IsFirstOfLeast};

/// The opening is the first of least upper cost among the permitted vertices of permitted polygons
/// and then of forbidden ones. Where there is no opening, no vertex is permitted.
pub fn the_opening_is_the_first_of_least_cost()
    ensures first { (i : Instance) (z : Pt) → opening_of i ≡ Some z
        → IsFirstOfLeast (upper_of i) (candidates i) z }
    ensures none { (i : Instance) → opening_of i ≡ None → candidates i ≡ [] }
{}
