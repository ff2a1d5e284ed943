//! Why a search stops.

/// Why nothing more is leased.
#[derive(Clone, Copy, Debug, PartialEq, Eq)]
pub enum Stop {
    /// A square was to be split while this many squares were open, and there
    /// was no room for three more.
    PoolFull {
        /// How many squares were open, this one among them.
        count: u32,
    },
    /// A lease was asked for when all of the budget had been given.
    Budget {
        /// How many leases had been given.
        leases: u32,
    },
}
