//! The core of the search: a job, the pool of its squares, and the verdict on a leased square.
#![tactic(auto)]

mod best;
mod closed;
mod give_back;
mod job;
mod laws;
mod lease;
mod pool;
mod stop;
#[cfg(test)]
mod tests;
mod verdict;

pub use best::{better_of, cost_in};
pub use bound_heap::Entry;
pub use closed::Closed;
pub use give_back::Given;
pub use job::Job;
pub use laws::{a_begun_pool_is_sound, every_run_is_sound};
pub use lease::{Lease, LeaseAnswer};
pub use pool::{NoMemory, Pool};
pub use stop::Stop;
pub use verdict::{Bounds, Finding, Verdict, bounds_of, fine_in, judge, judge_by};
