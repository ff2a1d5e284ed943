//! The near set of a cost: the squares of one size that may hold a permitted point of at most this
//! cost.
//!
//! Squares are half-open, with sides of a power of two grid units, of which 65536 make a length. A
//! cost unit is 1/65536 of weight times length.
#![tactic(auto)]

mod ceiling;
mod laws;
mod near;
mod standing;
#[cfg(test)]
mod tests;

pub use laws::{
    deeper_squares_lie_in_the_set, greater_costs_have_larger_sets, near_points_are_held,
    no_point_costs_more_than_the_ceiling, squares_below_a_cheap_one_are_near, the_site_is_held,
};
pub use near::{count_near, write_near};
