//! The answer that a search ends with.
#![tactic(auto)]

mod by_workers;
mod ending;
#[cfg(test)]
mod tests;

pub use answer_model::Head;
pub use by_workers::finish_by_workers;
pub use discard_log::NodeList;
pub use ending::finish;
pub use pool_core::Closed;
