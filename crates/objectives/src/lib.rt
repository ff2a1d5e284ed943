//! Bounds of squares and costs of sites.
//!
//! A cost unit is 1/UNIT of weight times length. The coarse bound takes whole roots in grid units;
//! the fine bound and the two costs of a site take them in units of 1/UNIT of a grid unit.
#![tactic(auto)]

mod bounds;
mod costs;
mod gap;
mod laws;
mod passes;
mod radii;
mod rounding;
mod steep;
#[cfg(test)]
mod tests;
mod total;

pub use bounds::{coarse, coarse_and_fine, fine};
pub use costs::{cost_of, fine_and_upper, upper_cost};
pub use gap::reaches;
pub use laws::{
    coarse_is_below_fine, costs_are_ordered, costs_are_small, costs_enclose, fine_is_a_bound,
    quarters_are_bounded_higher,
};
pub use radii::fine_radius;
pub use steep::steepness;
pub use total::{MaxTotal, SumTotal, Total};
