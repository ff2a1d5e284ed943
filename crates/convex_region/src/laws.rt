//! Laws of polygons. Each is a clause of a function that does nothing.

ghost use Rattle.std.specs.Prelude.{◌≡◌, List, true};
ghost use Rattle.siting_definitions.specs.Point.{Place, Point};
ghost use Rattle.siting_definitions.specs.Polygon.{covers, turned};
ghost use Rattle.siting_definitions.specs.Instance.{IsPolygon};
ghost use Rattle.convex_region.specs.Box.{LiesInBox};

/// Each rational point that a polygon holds lies in the polygon's bounding box.
pub fn a_polygon_lies_in_its_box()
    ensures { (vs : List Place) (p : Point) → IsPolygon vs → covers vs p ≡ true → LiesInBox vs p }
{}

/// A polygon stands as it is when it is turned: it is counter-clockwise.
pub fn a_polygon_is_turned()
    ensures { (vs : List Place) → IsPolygon vs → turned vs ≡ vs }
{}
