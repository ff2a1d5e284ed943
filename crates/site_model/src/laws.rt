//! Laws of instances. Each is a clause of a function that does nothing.

ghost use Rattle.std.specs.Prelude.{◌≡◌, ℕ, ◌+◌, ◌-◌, ◌^◌, ◌<◌, ◌≤◌, true};
ghost use Rattle.siting_definitions.specs.Point.{Point};
ghost use Rattle.siting_definitions.specs.Square.{holds};
ghost use Rattle.siting_definitions.specs.Instance.{Instance, IsInstance};
ghost use Rattle.siting_definitions.specs.Permitted.{permits};
ghost use Rattle.siting_definitions.specs.Sites.{root_of, span, vertices};

/// The starting square holds every rational point that is permitted.
pub fn the_root_holds_every_permitted_point()
    ensures { (i : Instance) (p : Point)
        → IsInstance i → permits i p ≡ true → holds (root_of i) p ≡ true }
{}

/// The starting square's side is the least power of two of whole lengths above the extents of the
/// permitted polygons in x and in y.
pub fn the_root_has_the_least_side()
    ensures whole { (i : Instance) → 16 ≤ (root_of i).level }
    ensures above { (i : Instance)
        → span (vertices i.permitted) < 2 ^ ((root_of i).level - 16) }
    ensures least { (i : Instance) (k : ℕ)
        → span (vertices i.permitted) < 2 ^ k → (root_of i).level ≤ 16 + k }
{}
