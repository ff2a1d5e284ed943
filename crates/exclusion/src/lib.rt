//! Which squares hold no permitted point, by a test on their corners.
#![tactic(auto)]

mod laws;
mod test;
#[cfg(test)]
mod tests;

pub use laws::{
    an_excluded_square_holds_no_permitted_point, quarters_of_an_excluded_square_are_excluded,
};
pub use test::excluded;
