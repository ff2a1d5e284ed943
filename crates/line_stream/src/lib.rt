//! The lines of a source, in whatever pieces it gives them, within a limit of bytes.
//!
//! A `Lines` holds what was read ahead and the line that was kept; the source stands apart, and
//! is lent to each call. More is read of it only where what is held doesn't have a whole line.
#![tactic(auto)]

mod ahead;
mod laws;
mod lines;
mod so_far;
#[cfg(test)]
mod tests;

pub use laws::inputs_are_their_lines;
pub use lines::{LineError, Lines};
