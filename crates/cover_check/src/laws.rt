//! Laws of covers. Each is a clause of a function that does nothing.

ghost use Rattle.std.specs.Prelude.{◌≡◌, true, Some};
ghost use Rattle.siting_definitions.specs.Point.{Point};
ghost use Rattle.siting_definitions.specs.Instance.{IsInstance};
ghost use Rattle.siting_definitions.specs.Permitted.{permits};
ghost use Rattle.edge_chain.specs.Chain.{edges_of};
ghost use Rattle.edge_chain.specs.Limit.{IsLimit};
ghost use Rattle.edge_chain.specs.Wanted.{IsWanted};
ghost use Rattle.cover_check.specs.Cover.{Cover, IsCover, fine_point, lies_in};
ghost use Rattle.cover_check.specs.Verdict.{Tells};
ghost use Rattle.cover_check.specs.declared.faults.CoverFault.{CoverFault};

/// The instance of a cover permits each rational point of the tile that is a limit of points inside
/// the region and outside the forbidden areas.
pub fn a_cover_permits_what_is_wanted()
    ensures { (c : Cover) (p : Point) → IsInstance c.instance → IsCover c
        → lies_in c.tile (fine_point c.shift p) ≡ true
        → IsLimit (IsWanted (edges_of c.region) (edges_of c.forbidden)) (fine_point c.shift p)
        → permits c.instance p ≡ true }
{}

/// The check tells no fault of a cover.
pub fn a_cover_has_no_fault()
    ensures { (c : Cover) (fault : CoverFault) → IsCover c → Tells c (Some fault) → ⊥ }
{}
