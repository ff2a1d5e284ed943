//! Polygons of an instance in fine units.

ghost use Rattle.std.specs.Prelude.{◌≡◌, ◌≤◌, ◌^◌, pos, ◌*ℤ◌, IfOk, map, unsigned_abs};
ghost use Rattle.edge_chain.specs.Limits.{IsCoordinate};
ghost use Rattle.siting_definitions.specs.Instance as instances;
ghost use Rattle.cover_check.specs.Cover as covers;
ghost use Rattle.cover_check.specs.Verdict.{fine_polygons};

use crate::shapes::Ring;
use convex_region::Polygon;
use edge_chain::Vertex;
use exact_geometry::Place;
use std::alloc::{AllocError, Global};

/// How many fine units a length has.
fn unit_of(shift: u8) -> i64
    requires { shift ≤ 20 }
    ensures value { result ≡ pos (2 ^ shift) }
    ensures size { unsigned_abs result ≤ 1048576 }
{
    (1u64 << shift) as i64
}

/// A coordinate in fine units, of which a length has `unit`.
fn fine_coordinate(unit: i64, z: i64) -> i64
    requires unit { unsigned_abs unit ≤ 1048576 }
    requires z { instances.IsCoordinate z }
    ensures value { result ≡ unit *ℤ z }
    ensures size { IsCoordinate result }
{
    unit * z
}

/// A place in fine units.
fn fine(shift: u8, v: Place) -> Vertex
    requires { shift ≤ 20 }
    ensures { result ≡ covers.fine shift v }
{
    let unit = unit_of(shift);
    Vertex::of(
        fine_coordinate(unit, i64::from(v.x)),
        fine_coordinate(unit, i64::from(v.y)),
    )
}

/// A polygon in fine units.
fn fine_polygon(alloc: Global, shift: u8, polygon: &Polygon) -> Result<Ring, AllocError>
    requires { shift ≤ 20 }
    ensures { IfOk result (λ ring. ring ≡ map (covers.fine shift) polygon.now) }
{
    let mut vertices = Vec::new(alloc);
    for i in 0..polygon.len() {
        vertices.push(fine(shift, polygon.vertex(i)))?;
    }
    Ok(Ring::of(vertices))
}

/// Polygons in fine units.
pub(crate) fn fine_rings(
    alloc: Global,
    shift: u8,
    polygons: &[Polygon],
) -> Result<Vec<Ring>, AllocError>
    requires { shift ≤ 20 }
    ensures { IfOk result (λ rings. rings.items ≡ fine_polygons shift polygons.now) }
{
    let mut rings = Vec::new(alloc);
    for polygon in polygons {
        rings.push(fine_polygon(alloc, shift, polygon)?)?;
    }
    Ok(rings)
}
