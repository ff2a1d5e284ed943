//! A square with its bound.

use dyadic_square::Square;

/// A square that waits or is leased.
#[derive(Clone, Copy, Debug, PartialEq, Eq)]
pub struct Entry {
    /// The square, in grid units.
    pub square: Square,
    /// In cost units. In a sound pool no point of the square costs less.
    pub bound: i64,
    /// Whether the bound was raised: in a sound pool it is then the square's fine bound.
    pub raised: bool,
}
