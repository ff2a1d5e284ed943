//! Convex polygons, counter-clockwise, and the points that they hold.
#![tactic(auto)]

mod build;
mod laws;
mod polygon;
#[cfg(test)]
mod tests;
mod turns;

pub use build::PolygonFault;
pub use laws::{a_polygon_is_turned, a_polygon_lies_in_its_box};
pub use polygon::Polygon;
