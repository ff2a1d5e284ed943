//! A square, its parts, and its place in the order of a tree.

ghost use Rattle.std.specs.Prelude.{◌≡◌, ◌-◌, ◌^◌, ◌<◌, ◌≤◌, pos, ◌≤ℤ◌, ◌&&◌, int_le, int_lt};
ghost use Rattle.siting_definitions.specs.Point.{point_of};
ghost use Rattle.siting_definitions.specs.Square as squares;
ghost use Rattle.siting_definitions.specs.Square.{IsSquare, centre_of, corner_of};
ghost use Rattle.siting_definitions.specs.Square.{extent_of, holds, quarter_of};
ghost use Rattle.dyadic_square.specs.Order.{rank_of, z_of};

use crate::spread::spread_40;
use exact_geometry::{Extent, Pt};
use std::marker::Model;

/// A half-open square of the grid: it holds its left and its lower border, and neither of the
/// others. The closed square lies within ±2^38 grid units.
#[derive(Clone, Copy, Debug, PartialEq, Eq)]
pub struct Square {
    /// The left border, in grid units.
    pub x: i64,
    /// The lower border, in grid units.
    pub y: i64,
    /// The side is 2^level grid units. At most 37.
    pub level: u8,
}

impl Model for Square {
    ghost use Rattle.siting_definitions.specs.Square as squares;
    ghost use Rattle.siting_definitions.specs.Square.{IsSquare};

    ghost Value = { squares.Square };

    ghost view = { λ a. record { x = a.x; y = a.y; level = a.level } };

    ghost invariant = { λ a. IsSquare (record { x = a.x; y = a.y; level = a.level }) };

    ghost inverse = { λ s. record { x = s.x; y = s.y; level = s.level } };
}

/// The side of a square of this level on the far side, in grid units, and 0 on the near one.
fn far_by(far: bool, level: u8) -> i64
    requires { level ≤ 37 }
    ensures { result ≡ pos (squares.far_by far (2 ^ level)) }
{
    if far { (1u64 << level) as i64 } else { 0 }
}

/// Whether `low <= v < high`.
fn is_between(low: i64, v: i64, high: i64) -> bool
    ensures { result ≡ (int_le low v && int_lt v high) }
{
    low <= v && v < high
}

impl Square {
    /// The square with the lower left corner (x, y), in grid units, and a side of 2^level.
    pub fn of(x: i64, y: i64, level: u8) -> Square
        requires { IsSquare (record { x = x; y = y; level = level }) }
        ensures { result ≡ record { x = x; y = y; level = level } }
    {
        Square { x, y, level }
    }

    /// The side, in grid units.
    pub fn side_len(self) -> i64
        ensures value { result ≡ pos (2 ^ self.level) }
        ensures within { result ≤ℤ pos (2 ^ 37) }
        ensures limits { IsSquare self }
    {
        far_by(true, self.level)
    }

    /// The closed square as a box.
    pub fn extent(self) -> Extent
        ensures { result ≡ extent_of self }
    {
        let side = self.side_len();
        Extent {
            x0: self.x,
            y0: self.y,
            x1: self.x + side,
            y1: self.y + side,
        }
    }

    /// Corner `i` of the closed square: 0 (left, lower), 1 (right, lower), 2 (left, upper), 3
    /// (right, upper).
    pub fn corner(self, i: u8) -> Pt
        requires { i < 4 }
        ensures { result ≡ corner_of self i }
    {
        Pt::of(
            self.x + far_by(i % 2 == 1, self.level),
            self.y + far_by(i >= 2, self.level),
        )
    }

    /// Whether the half-open square holds `p`.
    pub fn contains(self, p: Pt) -> bool
        ensures { result ≡ holds self (point_of p) }
    {
        let side = self.side_len();
        is_between(self.x, p.x, self.x + side) && is_between(self.y, p.y, self.y + side)
    }

    /// Quarter `i`, numbered as the corners. The level has to be above 0.
    pub fn quarter(self, i: u8) -> Square
        requires level { 0 < self.level }
        requires number { i < 4 }
        ensures { result ≡ quarter_of self i }
    {
        let level = self.level - 1;
        Square::of(
            self.x + far_by(i % 2 == 1, level),
            self.y + far_by(i >= 2, level),
            level,
        )
    }

    /// The centre, half the side to the right of the corner and above it. The
    /// level has to be above 0.
    pub fn centre(self) -> Pt
        requires { 0 < self.level }
        ensures { result ≡ centre_of self }
    {
        let half = far_by(true, self.level - 1);
        Pt::of(self.x + half, self.y + half)
    }

    /// The bits of the ways from the root's corner to this one's, each bit of y above the bit of x
    /// of its place. Of squares of a tree of `root` it is their place along the z curve.
    pub fn z_key(self, root: Square) -> u128
        ensures value { result ≡ z_of root self }
        ensures size { result < 2 ^ 82 }
    {
        let across = spread_40(self.x.abs_diff(root.x));
        let upwards = spread_40(self.y.abs_diff(root.y));
        2 * upwards + across
    }

    /// One number for the order by `z_key`, and of two squares with one key the larger first. The
    /// squares of a tree of `root`, in rising order of this number, stand in preorder.
    pub fn rank(self, root: Square) -> u128
        ensures { result ≡ rank_of root self }
    {
        64 * self.z_key(root) + (63 - self.level) as u128
    }
}
