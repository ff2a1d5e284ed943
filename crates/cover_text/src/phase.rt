//! How far a reader has come.

/// Which line of a cover comes next.
#[derive(Clone, Copy, Debug, PartialEq, Eq)]
pub(crate) enum Phase {
    /// The header.
    Header,
    /// The shift.
    Shift,
    /// The tile.
    Tile,
    /// A ring, a triangle or the end.
    Body,
    /// The first line of the instance.
    Ended,
}
