//! The check of an answer by several workers: the verdict of `check`, with the bounds of the lines
//! computed in several threads.
//!
//! Lines are read in batches, and each is cut into as many parts as there are workers. So it reads
//! ahead: by 65,536 lines at most past the first fault.
#![tactic(auto)]

mod batch;
mod checking;
mod gate;
mod laws;
mod parts;
mod taking;
#[cfg(test)]
mod tests;

pub use checking::check_with;
pub use gate::{CheckGate, OpenCheckGate};
pub use laws::parts_join;
