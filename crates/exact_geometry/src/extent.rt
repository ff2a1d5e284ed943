//! Closed boxes.

ghost use Rattle.std.specs.Prelude.{◌≡◌, ◌||◌, int_lt};
ghost use Rattle.siting_definitions.specs.Excluded as excluded;

use std::marker::Model;

/// A closed box with sides along the axes, in grid units: the points from (x0, y0) to (x1, y1).
#[derive(Clone, Copy, Debug, PartialEq, Eq)]
pub struct Extent {
    /// The left border.
    pub x0: i64,
    /// The lower border.
    pub y0: i64,
    /// The right border.
    pub x1: i64,
    /// The upper border.
    pub y1: i64,
}

impl Model for Extent {
    ghost use Rattle.siting_definitions.specs.Square as squares;

    ghost Value = { squares.Extent };

    ghost view = { λ a. record { x0 = a.x0; y0 = a.y0; x1 = a.x1; y1 = a.y1 } };

    ghost inverse = { λ e. record { x0 = e.x0; y0 = e.y0; x1 = e.x1; y1 = e.y1 } };
}

/// Whether the span from `start_a` to `end_a` and the span from `start_b` to `end_b`
/// have no number in common.
fn spans_apart(start_a: i64, end_a: i64, start_b: i64, end_b: i64) -> bool
    ensures { result ≡ (int_lt end_a start_b || int_lt end_b start_a) }
{
    end_a < start_b || end_b < start_a
}

/// Whether two boxes have no point in common.
pub fn boxes_apart(a: Extent, b: Extent) -> bool
    ensures { result ≡ excluded.boxes_apart a b }
{
    spans_apart(a.x0, a.x1, b.x0, b.x1) || spans_apart(a.y0, a.y1, b.y0, b.y1)
}
