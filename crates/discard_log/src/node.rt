//! A square with its mark.

use dyadic_square::Square;
use siting_definitions::Mark;

/// A square of a tree, and what became of it.
#[derive(Clone, Copy, Debug, PartialEq, Eq)]
pub struct Node {
    /// The square, in grid units.
    pub square: Square,
    /// What became of it: cut, excluded, settled or left open.
    pub mark: Mark,
}
