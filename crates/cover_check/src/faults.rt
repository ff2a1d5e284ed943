//! Why a cover isn't one.

/// The first test of a cover that fails.
#[derive(Clone, Copy, Debug, PartialEq, Eq)]
pub enum CoverFault {
    /// The edges of the triangles and the reversed edges of the region don't cancel.
    Edges,
    /// The triangle on this line has an owner that isn't a permitted polygon.
    Owner(u64),
    /// The owner of the triangle on this line doesn't hold all its corners.
    Triangle(u64),
    /// The triangle on this line has no owner, and doesn't lie beyond one side of the tile.
    Tile(u64),
    /// In the interior of this forbidden polygon, counted from 1, a point may be wanted.
    Piece(u64),
}
