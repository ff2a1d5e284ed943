//! Leasing a square.

ghost use Rattle.std.specs.Prelude.{◌≡◌, ◌==◌, ◌<◌, ◌≤◌, ◌++◌, ◌∷◌, [], vec_len, vec_capacity};
ghost use Rattle.pool_core.specs.PoolAnswers.{LeaseAnswers};

use crate::job::Job;
use crate::pool::Pool;
use crate::stop::Stop;
use bound_heap::Entry;
use dyadic_square::Square;
use std::marker::Model;

/// A square that is out of the pool until it is given back with a verdict.
#[derive(Debug, Drop)]
pub struct Lease {
    pub(crate) entry: Entry,
}

impl Model for Lease {
    ghost use Rattle.bound_heap.specs.declared.entry.Entry as entries;

    ghost Value = { entries.Entry };

    ghost view = { λ a. a.entry };
}

impl Lease {
    /// The square that is leased, in grid units.
    pub fn square(&self) -> Square
        ensures { result ≡ self.now.square }
    {
        self.entry.square
    }

    /// The bound of the square, in cost units. In a sound pool no point of the square costs less.
    pub fn bound(&self) -> i64
        ensures { result ≡ self.now.bound }
    {
        self.entry.bound
    }

    /// Whether the bound was raised: in a sound pool it is then the square's fine bound.
    pub fn raised(&self) -> bool
        ensures { result ≡ self.now.raised }
    {
        self.entry.raised
    }
}

/// What a pool answers where a lease is asked for.
#[derive(Debug, Drop)]
pub enum LeaseAnswer {
    /// There is a stop, or the budget is spent while something waits, which is a stop from now on.
    Stopped(Stop),
    /// No square is open.
    Done,
    /// Nothing waits, and something is leased.
    Idle,
    /// A waiting square of least bound.
    Leased(Lease),
}

impl Pool {
    /// Leases a waiting square of least bound, where there is no stop, something waits and the
    /// budget isn't spent.
    pub fn lease(&mut self) -> LeaseAnswer
        ensures { LeaseAnswers result self.old self.new }
    {
        if let Some(stop) = self.stop {
            return LeaseAnswer::Stopped(stop);
        }
        if self.waiting.len() == 0 {
            return if self.leased.is_empty() {
                LeaseAnswer::Done
            } else {
                LeaseAnswer::Idle
            };
        }
        if is_spent(&self.job, self.leases) {
            let stop = Stop::Budget {
                leases: self.leases,
            };
            self.stop = Some(stop);
            return LeaseAnswer::Stopped(stop);
        }
        match self.waiting.pop() {
            None => unreachable!(),
            Some(entry) => {
                self.leases += 1;
                add_leased(&mut self.leased, &entry);
                LeaseAnswer::Leased(Lease { entry })
            }
        }
    }
}

/// Whether this many leases are all that may be given.
fn is_spent(job: &Job, leases: u32) -> bool
    ensures { result ≡ (leases == job.now.budget) }
{
    leases == job.budget
}

/// Adds an entry to the leased ones.
fn add_leased(leased: &mut Vec<Entry>, entry: &Entry)
    requires { vec_len leased.old < vec_capacity leased.old }
    ensures items { leased.new.items ≡ leased.old.items ++ entry.now ∷ [] }
    ensures capacity { vec_capacity leased.old ≤ vec_capacity leased.new }
{
    match leased.push(*entry) {
        Ok(()) => {}
        Err(_) => unreachable!(),
    }
}
