//! Vertices, edges, and points in thirds.

ghost use Rattle.std.specs.Prelude.{◌≡◌};
ghost use Rattle.siting_definitions.specs.Point.{Place};
ghost use Rattle.edge_chain.specs.Chain as chains;
ghost use Rattle.edge_chain.specs.Limits.{IsCoordinate, IsVertex};

use std::marker::Model;

/// A point with whole coordinates, each at most 2^40 in size.
#[derive(Clone, Copy, Debug, PartialEq, Eq)]
pub struct Vertex {
    /// The coordinate to the right.
    pub x: i64,
    /// The coordinate upwards.
    pub y: i64,
}

impl Model for Vertex {
    ghost use Rattle.siting_definitions.specs.Point as points;
    ghost use Rattle.edge_chain.specs.Limits.{IsVertex};

    ghost Value = { points.Place };

    ghost view = { λ a. record { x = a.x; y = a.y } };

    ghost invariant = { λ a. IsVertex (record { x = a.x; y = a.y }) };

    ghost inverse = { λ v. record { x = v.x; y = v.y } };
}

impl Vertex {
    /// The vertex (x, y).
    pub fn of(x: i64, y: i64) -> Vertex
        requires x { IsCoordinate x }
        requires y { IsCoordinate y }
        ensures { result ≡ record { x = x; y = y } }
    {
        Vertex { x, y }
    }
}

/// A directed edge.
#[derive(Clone, Copy, Debug, PartialEq, Eq)]
pub struct Edge {
    /// Where it starts.
    pub start: Vertex,
    /// Where it ends.
    pub end: Vertex,
}

impl Model for Edge {
    ghost use Rattle.edge_chain.specs.Chain as chains;

    ghost Value = { chains.Edge };

    ghost view = { λ a. (a.start, a.end) };

    ghost inverse = { λ e. record { start = e.0; end = e.1 } };
}

impl Edge {
    /// The edge in the opposite direction.
    pub fn reversed(self) -> Edge
        ensures { result ≡ chains.reversed self }
    {
        Edge {
            start: self.end,
            end: self.start,
        }
    }
}

/// A point whose coordinates are whole thirds, each at most 2^40 in size.
#[derive(Clone, Copy, Debug, PartialEq, Eq)]
pub struct Thirds {
    /// The coordinate to the right, in thirds.
    pub x: i64,
    /// The coordinate upwards, in thirds.
    pub y: i64,
}

impl Model for Thirds {
    ghost use Rattle.edge_chain.specs.Thirds as spots;
    ghost use Rattle.edge_chain.specs.Limits.{AreThirds};

    ghost Value = { spots.Thirds };

    ghost view = { λ a. record { x = a.x; y = a.y } };

    ghost invariant = { λ a. AreThirds (record { x = a.x; y = a.y }) };

    ghost inverse = { λ p. record { x = p.x; y = p.y } };
}
