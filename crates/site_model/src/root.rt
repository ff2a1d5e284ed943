//! The starting square.

ghost use Rattle.std.specs.Prelude.{◌≡◌, ◌≤◌, length, All, IsTrue};
ghost use Rattle.std.specs.Float.Ieee.{size};
ghost use Rattle.siting_definitions.specs.Point.{grid, point_of};
ghost use Rattle.siting_definitions.specs.Square.{holds_closed};
ghost use Rattle.siting_definitions.specs.Instance.{Instance, IsPolygon};
ghost use Rattle.siting_definitions.specs.Excluded as excluded;
ghost use Rattle.siting_definitions.specs.Sites.{root_of, vertices};
ghost use Rattle.site_model.specs.Box.{IsBoxWithin, box_round as least_box, square_of_box};

use convex_region::Polygon;
use dyadic_square::Square;
use exact_geometry::Extent;
use siting_definitions::UNIT;

/// The starting square of an instance with these permitted polygons.
pub(crate) fn root_over(permitted: &[Polygon]) -> Square
    requires { 1 ≤ length permitted.now }
    ensures value { (i : Instance) → i.permitted ≡ permitted.now → result ≡ root_of i }
    ensures polygons { All IsPolygon permitted.now }
{
    square_over(box_of_all(permitted))
}

/// The square over a polygon's bounding box: its corner is the box's, and its side the least power
/// of two of lengths above the box's sides. It holds each vertex.
pub fn square_round(polygon: &Polygon) -> Square
    ensures value { result ≡ square_of_box (excluded.box_of polygon.now) }
    ensures vertices { All (λ v. IsTrue (holds_closed result (point_of (grid v)))) polygon.now }
{
    square_over(polygon.bounds())
}

/// The square whose corner is the box's, with the least side of a power of two of lengths above the
/// box's sides.
fn square_over(bounds: Extent) -> Square
    requires { IsBoxWithin bounds }
    ensures { result ≡ square_of_box bounds }
{
    let width = bounds.x1.abs_diff(bounds.x0) / UNIT;
    let height = bounds.y1.abs_diff(bounds.y0) / UNIT;
    Square::of(bounds.x0, bounds.y0, 16 + binary_digits(width.max(height)))
}

/// How many binary digits `n` has.
fn binary_digits(n: u64) -> u8
    ensures { result ≡ size n }
{
    (64 - n.leading_zeros()) as u8
}

/// The box round all the polygons, in grid units.
fn box_of_all(polygons: &[Polygon]) -> Extent
    requires { 1 ≤ length polygons.now }
    ensures value { result ≡ excluded.box_of (vertices polygons.now) }
    ensures polygons { All IsPolygon polygons.now }
{
    let mut bounds = polygons[0].bounds();
    for i in 1..polygons.len() {
        bounds = box_round(bounds, polygons[i].bounds());
    }
    bounds
}

/// The least box round two boxes.
fn box_round(a: Extent, b: Extent) -> Extent
    ensures { result ≡ least_box a b }
{
    Extent {
        x0: a.x0.min(b.x0),
        y0: a.y0.min(b.y0),
        x1: a.x1.max(b.x1),
        y1: a.y1.max(b.y1),
    }
}
