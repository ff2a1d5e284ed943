//! Laws of centre bounds. Each function here does nothing, and its clause is the law.

ghost use Rattle.std.specs.Prelude.{◌≡◌, ◌≤ℤ◌, true};
ghost use Rattle.siting_definitions.specs.Point.{Point};
ghost use Rattle.siting_definitions.specs.Instance.{Instance};
ghost use Rattle.siting_definitions.specs.Cost.{CostAtLeast};
ghost use Rattle.siting_definitions.specs.Square.{Square, holds_closed};
ghost use Rattle.siting_definitions.specs.Bounds.{fine_of};
ghost use Rattle.siting_definitions.specs.Answer.{Answer, IsValid};
ghost use Rattle.answer_model.specs.Nodes.{nodes_of};
ghost use Rattle.centre_bound.specs.Cut.{centre_bound_of};
ghost use Rattle.centre_bound.specs.Polished.{HaveFineBounds, IsPolished, least_centre_bound};

/// No rational point of the closed square costs less than the centre bound.
pub fn centre_bound_is_a_bound()
    ensures { (i : Instance) (s : Square) (p : Point) → holds_closed s p ≡ true
        → CostAtLeast i p (centre_bound_of i s) }
{}

/// The centre bound is at least the fine bound.
pub fn centre_bound_is_at_least_fine()
    ensures { (i : Instance) (s : Square) → fine_of i s ≤ℤ centre_bound_of i s }
{}

/// The least centre bound of a valid answer's leaves that aren't excluded is a bound over all
/// permitted points and at least the answer's bound. Where all its leaves are excluded, neither is
/// there. The bounds in the marks are the fine bounds of their squares.
pub fn a_valid_answer_is_polished()
    ensures polished { (a : Answer) → IsValid a
        → IsPolished a.head.instance a.head.bound
        (least_centre_bound a.head.instance (nodes_of a)) }
    ensures fine { (a : Answer) → IsValid a → HaveFineBounds a.head.instance (nodes_of a) }
{}
