//! Gates, which the workers of a team pass.

/// Where a worker of a team is.
#[derive(Clone, Copy, Debug, PartialEq, Eq)]
pub enum Moment {
    /// It has got a lease.
    Leased,
    /// It has judged its square, and is about to give it back.
    Judged,
    /// It found that nothing waits.
    Idle,
    /// It found the turn taken.
    Busy,
}

/// What each worker of a team passes at each of these moments. It has no meaning: it gives nothing,
/// and can't reach the pool.
pub trait Gate {
    /// A worker is at this moment.
    fn pass(&self, moment: Moment);
}

/// The gate that does nothing.
#[derive(Drop)]
pub struct OpenGate;

impl Gate for OpenGate {
    fn pass(&self, _moment: Moment) {}
}
