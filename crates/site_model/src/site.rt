//! Sites, in grid units.

ghost use Rattle.std.specs.Prelude.{◌≡◌};
ghost use Rattle.siting_definitions.specs.Answer.{IsSite};

use exact_geometry::Pt;
use std::marker::Model;

/// A grid point where the facility may stand: each coordinate is at most 2^38 in size.
#[derive(Clone, Copy, Debug, PartialEq, Eq)]
pub struct Site {
    /// The coordinate to the right, in grid units.
    pub x: i64,
    /// The coordinate upwards, in grid units.
    pub y: i64,
}

impl Model for Site {
    ghost use Rattle.siting_definitions.specs.Point as points;
    ghost use Rattle.siting_definitions.specs.Answer.{IsSite};

    ghost Value = { points.Pt };

    ghost view = { λ a. record { x = a.x; y = a.y } };

    ghost invariant = { λ a. IsSite (record { x = a.x; y = a.y }) };

    ghost inverse = { λ p. record { x = p.x; y = p.y } };
}

impl Site {
    /// The site (x, y), in grid units.
    pub fn of(x: i64, y: i64) -> Site
        requires { IsSite (record { x = x; y = y }) }
        ensures { result ≡ record { x = x; y = y } }
    {
        Site { x, y }
    }

    /// The site as a grid point, in grid units.
    pub fn pt(self) -> Pt
        ensures value { result ≡ self }
        ensures site { IsSite self }
    {
        Pt {
            x: self.x,
            y: self.y,
        }
    }
}
