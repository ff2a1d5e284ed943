//! The program that checks covers: its top call, and what it writes.
#![tactic(auto)]

mod output;
mod status;
#[cfg(test)]
mod tests;
mod top_call;

pub use status::{Status, Verdict};
pub use top_call::run;

/// How many bytes of a text are read at most: 2^28.
pub const TEXT_LIMIT: usize = 268435456;
