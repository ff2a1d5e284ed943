//! The exclusion test.

ghost use Rattle.std.specs.Prelude.{◌≡◌, ◌<◌, true, pos, int_lt, length};
ghost use Rattle.std.specs.List.{list_all, list_any};
ghost use Rattle.siting_definitions.specs.Point.{point_of};
ghost use Rattle.siting_definitions.specs.Point as points;
ghost use Rattle.siting_definitions.specs.Polygon as polygons;
ghost use Rattle.siting_definitions.specs.Square.{corner_of};
ghost use Rattle.siting_definitions.specs.Excluded as tests;
ghost use Rattle.siting_definitions.specs.Excluded.{is_excluded};

use convex_region::Polygon;
use dyadic_square::Square;
use exact_geometry::{Place, boxes_apart, side};
use site_model::Instance;

/// Whether a square is excluded: each permitted polygon is strictly apart from the closed square,
/// by their bounding boxes or by one of the polygon's own edges, or some forbidden polygon has all
/// four corners of the square in its interior.
#[tactic(auto, unfolding(siting_definitions::specs::Excluded::is_excluded))]
pub fn excluded(instance: &Instance, sq: Square) -> bool
    ensures { result ≡ is_excluded instance.now sq }
{
    are_all_apart(instance.permitted(), sq) || does_one_enclose(instance.forbidden(), sq)
}

/// Whether each polygon is strictly apart from the closed square.
fn are_all_apart(polygons: &[Polygon], sq: Square) -> bool
    ensures { result ≡ list_all (λ vs. tests.is_apart vs sq) polygons.now }
{
    for polygon in polygons {
        if !is_apart(polygon, sq) {
            return false;
        }
    }
    true
}

/// Whether a polygon has all four corners of the square in its interior.
fn does_one_enclose(polygons: &[Polygon], sq: Square) -> bool
    ensures { result ≡ list_any (λ vs. tests.encloses vs sq) polygons.now }
{
    for polygon in polygons {
        if encloses(polygon, sq) {
            return true;
        }
    }
    false
}

/// Whether the polygon is strictly apart from the closed square, by their
/// boxes or by one of its edges.
#[tactic(auto, unfolding(siting_definitions::specs::Excluded::is_apart))]
fn is_apart(polygon: &Polygon, sq: Square) -> bool
    ensures { result ≡ tests.is_apart polygon.now sq }
{
    boxes_apart(polygon.bounds(), sq.extent()) || has_edge_beside(polygon, sq)
}

/// Whether the closed square lies strictly to the right of one of the polygon's edges.
fn has_edge_beside(polygon: &Polygon, sq: Square) -> bool
    ensures { result ≡ list_any (λ (e : points.Place × points.Place). tests.is_right_of e.0 e.1 sq)
        (polygons.edges polygon.now) }
{
    for i in 0..polygon.len() {
        if is_right_of_edge(polygon, i, sq) {
            return true;
        }
    }
    false
}

/// Whether the closed square lies strictly to the right of edge `i`.
fn is_right_of_edge(polygon: &Polygon, i: usize, sq: Square) -> bool
    requires { i < length polygon.now }
    ensures { result ≡ tests.is_right_of (polygons.vertex polygon.now i)
        (polygons.vertex polygon.now (polygons.next_of (length polygon.now) i)) sq }
{
    let (a, b) = polygon.edge(i);
    is_right_of(a, b, sq)
}

/// Whether the closed square lies strictly to the right of the edge from `a` to `b`.
fn is_right_of(a: Place, b: Place, sq: Square) -> bool
    ensures { result ≡ tests.is_right_of a b sq }
{
    is_corner_right(a, b, sq, 0)
        && is_corner_right(a, b, sq, 1)
        && is_corner_right(a, b, sq, 2)
        && is_corner_right(a, b, sq, 3)
}

/// Whether corner `i` lies strictly to the right of the edge from `a` to `b`.
fn is_corner_right(a: Place, b: Place, sq: Square, i: u8) -> bool
    requires { i < 4 }
    ensures { result ≡ int_lt (points.side a b (point_of (corner_of sq i))) (pos 0) }
{
    side(a, b, sq.corner(i)) < 0
}

/// Whether all four corners of the square lie in the polygon's interior.
#[tactic(auto, unfolding(siting_definitions::specs::Excluded::encloses))]
fn encloses(polygon: &Polygon, sq: Square) -> bool
    ensures { result ≡ tests.encloses polygon.now sq }
{
    polygon.covers_inside(sq.corner(0))
        && polygon.covers_inside(sq.corner(1))
        && polygon.covers_inside(sq.corner(2))
        && polygon.covers_inside(sq.corner(3))
}
