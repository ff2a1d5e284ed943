//! What a seat at the table knows.

use crate::deed::{Deeds, Pasts};
use pool_core::{Lease, Pool};
use site_model::Site;

/// Whose a seat is.
pub enum Role {
    /// The root desk's.
    Root,
    /// A desk's.
    Desk,
    /// Nobody's: it was joined with the root desk's.
    Spent,
}

/// What the desk or the root desk at a seat knows. No value of it is made: contracts alone see it.
pub struct View {
    /// Whose the seat is.
    pub role: Role,
    /// Which seat it is: the root desk's is 0.
    pub seat: u64,
    /// The deeds of all desks up to its own last one, the newest first.
    pub deeds: Deeds,
    /// The desks that the root desk has taken in.
    pub pasts: Pasts,
    /// The pool with which the table was made. It has the job and the beginning.
    pub first: Pool,
    /// The last number of the incumbent that it saw, in cost units, if it saw one. A root desk has
    /// seen the start's.
    pub seen: Option<i64>,
    /// The best site of its own with the upper cost, in cost units: a desk's least offer, and a
    /// root desk's the best of the start and of all that the desks that it took in have offered.
    pub best: Option<(Site, i64)>,
    /// The square that the desk has leased, if it has one.
    pub lease: Option<Lease>,
    /// How often the desk looked or offered.
    pub loads: u64,
    /// How often a take of the turn by the desk met another one's.
    pub lost: u64,
    /// Whether the desk looked or offered since its last lease was got, or, before its first one,
    /// since it was seated out.
    pub fresh: bool,
    /// Whether the desk was told that nothing more will be leased, and of a root desk, whether a
    /// desk that it took in was.
    pub ended: bool,
    /// Whether the desk has the turn.
    pub has_turn: bool,
    /// The pool as the desk's last take of the turn found it.
    pub taken: Pool,
    /// The pool as the desk left it when it last gave the turn.
    pub given: Pool,
    /// How many desks of the root desk are out.
    pub out: u64,
    /// How many desks the root desk has seated out so far.
    pub seats: u64,
}
