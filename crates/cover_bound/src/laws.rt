//! Laws of covers and answers. Each is a clause of a function that does nothing.

ghost use Rattle.std.specs.Prelude.{◌≡◌, true};
ghost use Rattle.siting_definitions.specs.Point.{Point};
ghost use Rattle.siting_definitions.specs.Instance.{IsInstance};
ghost use Rattle.siting_definitions.specs.Answer.{Head};
ghost use Rattle.siting_definitions.specs.Claims.{Claims};
ghost use Rattle.edge_chain.specs.Chain.{edges_of};
ghost use Rattle.edge_chain.specs.Limit.{IsLimit};
ghost use Rattle.edge_chain.specs.Wanted.{IsWanted};
ghost use Rattle.cover_check.specs.Cover.{Cover, IsCover, fine_point, lies_in};
ghost use Rattle.cover_bound.specs.Bound.{IsBoundedBy};

/// An answer whose claims hold, to the instance of a cover, has a bound, and no rational point of
/// the tile costs less that is a limit of points inside the region and outside the forbidden areas.
pub fn an_answer_bounds_what_is_wanted()
    ensures { (h : Head) (c : Cover) (p : Point)
        → Claims h → h.instance ≡ c.instance → IsInstance c.instance → IsCover c
        → lies_in c.tile (fine_point c.shift p) ≡ true
        → IsLimit (IsWanted (edges_of c.region) (edges_of c.forbidden)) (fine_point c.shift p)
        → IsBoundedBy h p }
{}
