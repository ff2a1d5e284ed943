//! What the program says on standard error: which word is wrong and why, what a refusal means and
//! mostly comes from, and what an answer that isn't solved is good for.
//!
//! It follows from the words and the status alone, and no part of it is ever in an answer.
#![tactic(auto)]

mod faults;
mod help;
mod nearest;
mod statuses;
#[cfg(test)]
mod tests;
mod usage;

pub use help::write_help;
