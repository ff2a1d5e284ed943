//! Waiting squares, that of least bound first, in a heap of fixed room.
#![tactic(auto)]

mod entry;
mod heap;
mod ranked;
#[cfg(test)]
mod tests;

pub use entry::Entry;
pub use heap::{Heap, NoMemory};
