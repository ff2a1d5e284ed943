//! What an answer is: its head, what is counted of its marks, and what a valid one claims.
#![tactic(auto)]

mod head;
mod laws;
mod leaf;
mod tally;
#[cfg(test)]
mod tests;

pub use head::Head;
pub use laws::{a_valid_answer_claims, a_valid_answer_has_its_nodes};
pub use leaf::{leaf_mark, mark_by_bound};
pub use siting_definitions::Word;
pub use tally::{Tally, is_split, tallies_join};
