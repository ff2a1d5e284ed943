//! The search: one worker over a pool, or a team of workers over a shared one.
#![tactic(auto)]

mod centre;
mod gate;
mod member;
#[cfg(test)]
mod tests;
mod worker;
mod workers;

pub use gate::{Gate, Moment, OpenGate};
pub use pool_core::Closed;
pub use search_answer::{finish, finish_by_workers};
pub use worker::alone;
pub use workers::{NoMemory, team};
