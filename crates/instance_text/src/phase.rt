//! How far a reader has come.

use site_model::Kind;

/// How far the lines of an instance text were read.
#[derive(Clone, Copy, Debug, PartialEq, Eq)]
pub(crate) enum Phase {
    /// Before the header.
    Start,
    /// After a header, by which points may have cutoffs or not.
    Body(bool),
    /// After the end of an instance of this kind.
    Ended(Kind),
}
