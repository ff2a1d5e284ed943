//! Laws of chains. Each is a clause of a function that does nothing.

ghost use Rattle.std.specs.Prelude.{All, ◌≡◌, ◌++◌, List, map, pos, ◌+ℤ◌, neg_ℤ, ◌<ℤ◌, true, false, ◌&&◌};
ghost use Rattle.std.specs.List.{list_any};
ghost use Rattle.siting_definitions.specs.Point.{Place, Point, side};
ghost use Rattle.siting_definitions.specs.Polygon.{covers, covers_inside};
ghost use Rattle.edge_chain.specs.Chain.{Edge, reversed, edges_of, winding, Cancel, IsClosed};
ghost use Rattle.edge_chain.specs.Triangle.{Triangle, corners, is_counter_clockwise, triangle_edges};
ghost use Rattle.edge_chain.specs.Limit.{IsLimit};
ghost use Rattle.edge_chain.specs.Wanted.{IsWanted, IsUnwanted};
ghost use Rattle.edge_chain.specs.Line.{HalfPlane, Holds, IsBeside};
ghost use Rattle.edge_chain.specs.Piece.{at, IsPiece, IsClear, inner_point};

/// Edges that cancel wind round no point.
pub fn cancelling_edges_wind_round_nothing()
    ensures { (es : List Edge) (p : Point) → Cancel es → winding es p ≡ pos 0 }
{}

/// Two chains, taken together, wind round a point as often as both.
pub fn windings_add_up()
    ensures { (xs ys : List Edge) (p : Point) → winding (xs ++ ys) p ≡ winding xs p +ℤ winding ys p }
{}

/// The reversed edges wind round a point as often the other way.
pub fn reversed_edges_wind_back()
    ensures { (es : List Edge) (p : Point) → winding (map reversed es) p ≡ neg_ℤ (winding es p) }
{}

/// Where the edges of triangles and the reversed edges of rings cancel, a counter-clockwise
/// triangle holds each point that the rings wind round.
pub fn a_cover_holds_what_its_rings_wind_round()
    ensures { (rings : List (List Place)) (ts : List Triangle) (p : Point)
        → Cancel (triangle_edges ts ++ map reversed (edges_of rings))
        → pos 0 <ℤ winding (edges_of rings) p
        → list_any (λ (t : Triangle). is_counter_clockwise t && covers (corners t) p) ts ≡ true }
{}

/// It holds each limit of points inside the rings and outside the forbidden areas too.
pub fn a_cover_holds_the_limits()
    ensures { (rings forbidden : List (List Place)) (ts : List Triangle) (p : Point)
        → Cancel (triangle_edges ts ++ map reversed (edges_of rings))
        → IsLimit (IsWanted (edges_of rings) (edges_of forbidden)) p
        → list_any (λ (t : Triangle). is_counter_clockwise t && covers (corners t) p) ts ≡ true }
{}

/// A half plane that holds the corners of a counter-clockwise triangle holds what the triangle
/// holds.
pub fn a_half_plane_holds_a_triangle_by_its_corners()
    ensures { (h : HalfPlane) (t : Triangle) (p : Point)
        → Holds h (at t.a) → Holds h (at t.b) → Holds h (at t.c)
        → is_counter_clockwise t ≡ true → covers (corners t) p ≡ true → Holds h p }
{}

/// The edges of rings are a closed chain.
pub fn rings_are_closed()
    ensures { (rings : List (List Place)) → IsClosed (edges_of rings) }
{}

/// The inner point of a piece lies in its interior.
pub fn an_inner_point_lies_inside()
    ensures { (vs : List Place) → IsPiece vs → covers_inside vs (inner_point vs) ≡ true }
{}

/// A closed chain that is clear of a piece winds as often round each point of its interior.
pub fn a_winding_is_constant_inside_a_piece()
    ensures { (vs : List Place) (es : List Edge) (p q : Point)
        → IsPiece vs → IsClosed es → IsClear vs es
        → covers_inside vs p ≡ true → covers_inside vs q ≡ true → winding es p ≡ winding es q }
{}

/// The interior of an unwanted piece holds no limit of wanted points.
pub fn an_unwanted_piece_holds_no_wanted_point()
    ensures { (region forbidden : List Edge) (vs : List Place) (p : Point)
        → IsPiece vs → IsClosed region → IsClosed forbidden → IsUnwanted region forbidden vs
        → IsLimit (IsWanted region forbidden) p → covers_inside vs p ≡ false }
{}

/// A closed chain doesn't wind round a point that a line parts from it.
pub fn a_point_apart_is_wound_round_by_nothing()
    ensures { (es : List Edge) (u v : Place) (p : Point)
        → IsClosed es → pos 0 <ℤ side u v p → All (IsBeside u v) es → winding es p ≡ pos 0 }
{}

/// A convex polygon that covers the corners of a counter-clockwise triangle covers the triangle.
pub fn a_polygon_covers_a_triangle_by_its_corners()
    ensures { (vs : List Place) (t : Triangle) (p : Point)
        → covers vs (at t.a) ≡ true → covers vs (at t.b) ≡ true → covers vs (at t.c) ≡ true
        → is_counter_clockwise t ≡ true → covers (corners t) p ≡ true → covers vs p ≡ true }
{}
