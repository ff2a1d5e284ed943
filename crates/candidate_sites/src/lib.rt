//! The sites that a search tries: the cheapest permitted vertex of a polygon,
//! and the centre of a square.
#![tactic(auto)]

mod centre;
mod cheapest;
mod laws;
mod site;
mod start;
#[cfg(test)]
mod tests;

pub use centre::{centre_site, permitted_centre};
pub use cheapest::opening;
pub use laws::the_opening_is_the_first_of_least_cost;
