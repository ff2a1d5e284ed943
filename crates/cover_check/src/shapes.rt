//! Tiles, triangles with owners, and rings.

ghost use Rattle.std.specs.Prelude.{◌≡◌};
ghost use Rattle.siting_definitions.specs.Point as points;
ghost use Rattle.edge_chain.specs.Limits.{IsCoordinate};

use edge_chain::Vertex;
use std::marker::Model;

/// A closed box, in fine units: the points from (x0, y0) to (x1, y1), each at most 2^40 in size.
#[derive(Clone, Copy, Debug)]
pub struct Tile {
    /// The left side.
    pub x0: i64,
    /// The lower side.
    pub y0: i64,
    /// The right side.
    pub x1: i64,
    /// The upper side.
    pub y1: i64,
}

impl Model for Tile {
    ghost use Rattle.cover_check.specs.Cover as covers;
    ghost use Rattle.cover_check.specs.Shapes.{IsTile};

    ghost Value = { covers.Tile };

    ghost view = { λ a. record { x0 = a.x0; y0 = a.y0; x1 = a.x1; y1 = a.y1 } };

    ghost invariant = { λ a. IsTile (record { x0 = a.x0; y0 = a.y0; x1 = a.x1; y1 = a.y1 }) };

    ghost inverse = { λ t. record { x0 = t.x0; y0 = t.y0; x1 = t.x1; y1 = t.y1 } };
}

impl Tile {
    /// The tile with these sides, in fine units.
    pub fn of(x0: i64, y0: i64, x1: i64, y1: i64) -> Tile
        requires x0 { IsCoordinate x0 }
        requires y0 { IsCoordinate y0 }
        requires x1 { IsCoordinate x1 }
        requires y1 { IsCoordinate y1 }
        ensures { result ≡ record { x0 = x0; y0 = y0; x1 = x1; y1 = y1 } }
    {
        Tile { x0, y0, x1, y1 }
    }
}

/// A triangle, of either turn.
#[derive(Clone, Copy, Debug)]
pub struct Triangle {
    /// The first corner.
    pub a: Vertex,
    /// The second corner.
    pub b: Vertex,
    /// The third corner.
    pub c: Vertex,
}

impl Model for Triangle {
    ghost use Rattle.edge_chain.specs.Triangle as triangles;

    ghost Value = { triangles.Triangle };

    ghost view = { λ t. record { a = t.a; b = t.b; c = t.c } };

    ghost inverse = { λ t. record { a = t.a; b = t.b; c = t.c } };
}

/// A triangle with its owner.
#[derive(Clone, Copy, Debug)]
pub struct Owned {
    /// The triangle.
    pub triangle: Triangle,
    /// The index of the permitted polygon that is to hold it; none, if it lies outside of the tile.
    pub owner: Option<u32>,
    /// The line that says it.
    pub line: u64,
}

impl Model for Owned {
    ghost use Rattle.cover_check.specs.Cover as covers;

    ghost Value = { covers.Owned };

    ghost view = { λ o. record { triangle = o.triangle; owner = o.owner; line = o.line } };

    ghost inverse = { λ o. record { triangle = o.triangle; owner = o.owner; line = o.line } };
}

/// A closed ring of vertices.
#[derive(Debug, Drop)]
pub struct Ring {
    vertices: Vec<Vertex>,
}

impl Model for Ring {
    ghost use Rattle.std.specs.Prelude.{List};
    ghost use Rattle.siting_definitions.specs.Point as points;

    ghost Value = { List points.Place };

    ghost view = { λ a. a.vertices.items };
}

impl Ring {
    /// The ring of these vertices, in order.
    pub fn of(vertices: Vec<Vertex>) -> Ring
        ensures { result ≡ vertices.items }
    {
        Ring { vertices }
    }

    /// The vertices, in order.
    pub fn vertices(&self) -> &[Vertex]
        ensures { result.now ≡ self.now }
    {
        self.vertices.as_slice()
    }
}
