//! Covers: that the permitted set of an instance holds what a planner drew.
#![tactic(auto)]

mod chains;
mod checking;
mod cover;
mod faults;
mod fine;
mod held;
mod laws;
mod pieces;
mod shapes;
#[cfg(test)]
mod tests;

pub use checking::check;
pub use cover::Cover;
pub use faults::CoverFault;
pub use laws::{a_cover_has_no_fault, a_cover_permits_what_is_wanted};
pub use shapes::{Owned, Ring, Tile, Triangle};
