//! Making a square polygon.

ghost use Rattle.std.specs.Prelude.{◌≡◌, ◌<◌, ◌≤◌, [], ◌∷◌, IfOk};
ghost use Rattle.siting_definitions.specs.declared.TheConstants.{COORDINATE_LIMIT};
ghost use Rattle.case_maker.specs.Made.{square};

use crate::memory::NoMemory;
use convex_region::{Polygon, PolygonFault};
use exact_geometry::Place;
use std::alloc::{AllocError, Global};

/// A list of one square, from (low, low) to (high, high), in lengths.
pub(crate) fn one_square(alloc: Global, low: u32, high: u32) -> Result<Vec<Polygon>, NoMemory>
    requires order { low < high }
    requires high { high ≤ COORDINATE_LIMIT }
    ensures { IfOk result (λ v. v.items ≡ square low high ∷ []) }
{
    let square = make_square(alloc, low, high)?;
    let squares = Vec::from_array(alloc, [square]).map_err(AllocError::from)?;
    Ok(squares)
}

/// The square from (low, low) to (high, high), in lengths.
fn make_square(alloc: Global, low: u32, high: u32) -> Result<Polygon, NoMemory>
    requires order { low < high }
    requires high { high ≤ COORDINATE_LIMIT }
    ensures { IfOk result (λ p. p ≡ square low high) }
{
    let (near, far) = (low as i32, high as i32);
    let corners = [
        Place::of(near, near),
        Place::of(far, near),
        Place::of(far, far),
        Place::of(near, far),
    ];
    match Polygon::build(alloc, &corners) {
        Ok(polygon) => Ok(polygon),
        Err(PolygonFault::NoMemory) => Err(NoMemory),
        Err(PolygonFault::TooFewVertices) => unreachable!(),
        Err(PolygonFault::TooManyVertices) => unreachable!(),
        Err(PolygonFault::NotConvex { edge: _, vertex: _ }) => unreachable!(),
    }
}
