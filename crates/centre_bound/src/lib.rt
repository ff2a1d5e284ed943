//! A better bound of a square, without splitting it: by a straight cut at its centre.
//!
//! For a whole vector no longer than 2^20, 2^20 times the distance from a place is at least the
//! scalar product of the vector and the way from it. Near the best site the bound by distances
//! lies below the cost by up to about half the square's side times all weights; that by straight
//! cuts lies below by half the side times the slope there, which is nearly nothing.
#![tactic(auto)]

mod bound;
mod cut;
mod direction;
mod laws;
mod polish;
#[cfg(test)]
mod tests;

pub use bound::centre_bound;
pub use laws::{
    a_valid_answer_is_polished, centre_bound_is_a_bound, centre_bound_is_at_least_fine,
};
pub use polish::polished;
