//! Going on from an answer: loading a valid one, and beginning a search from what it left open.
#![tactic(auto)]

mod laws;
mod loading;
mod nodes;
mod reopening;
#[cfg(test)]
mod tests;

pub use laws::{a_resumed_search_resumes, answers_resumed_in_turn_go_on};
pub use loading::{LoadError, load};
pub use reopening::{ReopenError, reopen};
