//! Chains of directed edges: how often they wind round a point, and what that tells of rings, of
//! triangles and of convex pieces. All of it is exact: no number here is rounded.
#![tactic(auto)]

mod cancelling;
mod laws;
mod piece;
mod rounds;
mod shapes;
mod sides;
#[cfg(test)]
mod tests;

pub use cancelling::cancel;
pub use laws::{
    a_cover_holds_the_limits, a_cover_holds_what_its_rings_wind_round,
    a_half_plane_holds_a_triangle_by_its_corners, a_point_apart_is_wound_round_by_nothing,
    a_polygon_covers_a_triangle_by_its_corners, a_winding_is_constant_inside_a_piece,
    an_inner_point_lies_inside, an_unwanted_piece_holds_no_wanted_point,
    cancelling_edges_wind_round_nothing, reversed_edges_wind_back, rings_are_closed,
    windings_add_up,
};
pub use piece::{covers, inner_point, is_clear};
pub use rounds::{rises, winding};
pub use shapes::{Edge, Thirds, Vertex};
