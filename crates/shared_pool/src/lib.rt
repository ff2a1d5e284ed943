//! A pool that several workers share, behind a turn that one of them takes at a time, with the
//! incumbent beside it.
//!
//! One table holds two words and one slot. Word 0 is the incumbent: the least upper cost of the
//! sites that were offered, as a word. Word 1 is the turn: 1 while a desk has it. The slot has the
//! pool. A worker steps on the table with a desk.
#![tactic(auto)]

mod deed;
mod desk;
mod incumbent;
mod leasing;
mod plays;
mod returning;
mod rule;
mod shared;
#[cfg(test)]
mod tests;
mod view;

pub use deed::{Deed, Deeds, Past, Pasts};
pub use desk::{Desk, RootDesk};
pub use leasing::TryLease;
pub use pool_core::Closed;
pub use returning::TryReturn;
pub use shared::{NoMemory, SharedPool};
pub use view::{Role, View};
