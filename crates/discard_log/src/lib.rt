//! What became of the squares of a tree: nodes with marks, logged in any order and sorted into
//! preorder in place.
#![tactic(auto)]

mod log;
mod node;
mod sort;
#[cfg(test)]
mod tests;

pub use log::{Log, NoMemory, NodeList};
pub use node::Node;
pub use siting_definitions::Mark;
