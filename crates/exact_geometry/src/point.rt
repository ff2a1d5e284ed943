//! Places, in lengths, and grid points, in grid units.

ghost use Rattle.std.specs.Prelude.{◌≡◌};
ghost use Rattle.siting_definitions.specs.Instance.{IsCoordinate, IsPlace};
ghost use Rattle.siting_definitions.specs.Point.{grid};
ghost use Rattle.exact_geometry.specs.Limits.{IsGridCoordinate, IsPt};

use siting_definitions::UNIT;
use std::marker::Model;

/// A point with whole coordinates, in lengths, each at most 1,000,000 in size.
#[derive(Clone, Copy, Debug, PartialEq, Eq)]
pub struct Place {
    /// The coordinate to the right, in lengths.
    pub x: i32,
    /// The coordinate upwards, in lengths.
    pub y: i32,
}

impl Model for Place {
    ghost use Rattle.siting_definitions.specs.Point as points;
    ghost use Rattle.siting_definitions.specs.Instance.{IsPlace};

    ghost Value = { points.Place };

    ghost view = { λ a. record { x = a.x; y = a.y } };

    ghost invariant = { λ a. IsPlace (record { x = a.x; y = a.y }) };

    ghost inverse = { λ v. record { x = v.x; y = v.y } };
}

impl Place {
    /// The place (x, y), in lengths.
    pub fn of(x: i32, y: i32) -> Place
        requires x { IsCoordinate x }
        requires y { IsCoordinate y }
        ensures { result ≡ record { x = x; y = y } }
    {
        Place { x, y }
    }

    /// The place as a grid point, in grid units.
    pub fn grid(self) -> Pt
        ensures value { result ≡ grid self }
        ensures place { IsPlace self }
    {
        Pt {
            x: UNIT as i64 * self.x as i64,
            y: UNIT as i64 * self.y as i64,
        }
    }
}

/// A point with whole coordinates, in grid units, each at most 2^39 in size.
#[derive(Clone, Copy, Debug, PartialEq, Eq)]
pub struct Pt {
    /// The coordinate to the right, in grid units.
    pub x: i64,
    /// The coordinate upwards, in grid units.
    pub y: i64,
}

impl Model for Pt {
    ghost use Rattle.siting_definitions.specs.Point as points;
    ghost use Rattle.exact_geometry.specs.Limits.{IsPt};

    ghost Value = { points.Pt };

    ghost view = { λ a. record { x = a.x; y = a.y } };

    ghost invariant = { λ a. IsPt (record { x = a.x; y = a.y }) };

    ghost inverse = { λ p. record { x = p.x; y = p.y } };
}

impl Pt {
    /// The grid point (x, y), in grid units.
    pub fn of(x: i64, y: i64) -> Pt
        requires x { IsGridCoordinate x }
        requires y { IsGridCoordinate y }
        ensures { result ≡ record { x = x; y = y } }
    {
        Pt { x, y }
    }
}
