//! The end of a search.

use crate::pool::Pool;
use site_model::Site;

/// What a search ends with: its pool, and the best site that was offered.
#[derive(Drop)]
pub struct Closed {
    /// The pool. Where the search ended soundly, nothing of it is leased.
    pub pool: Pool,
    /// The best site with its upper cost, in cost units, if there is one.
    pub best: Option<(Site, i64)>,
}
