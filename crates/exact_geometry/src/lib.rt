//! Points of the plane with whole coordinates, the side of an edge on which a point lies, and
//! closed boxes.
//!
//! A length is `UNIT` grid units, 65,536 of them. All of it is exact: no number here is rounded.
#![tactic(auto)]

mod edge;
mod extent;
mod point;
#[cfg(test)]
mod tests;

pub use edge::side;
pub use extent::{Extent, boxes_apart};
pub use point::{Place, Pt};
