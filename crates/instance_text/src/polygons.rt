//! The polygon of a line.

ghost use Rattle.std.specs.Prelude.{◌≡◌, true, false, Err, IfOk, IfNone, IfSome, MatchOption};
ghost use Rattle.text_lines.specs.Lines.{fields_of};
ghost use Rattle.instance_text.specs.Rows.{is_place, place_from, are_places, places_of};
ghost use Rattle.instance_text.specs.Rows.{polygon_of as polygon_from, polygon_row};
ghost use Rattle.instance_text.specs.Outcome.{Says};

use crate::faults::{
    BAD_LINE, BAD_NUMBER, LineError, NOT_CONVEX, OUT_OF_RANGE, TOO_FEW_VERTICES, TOO_MANY_VERTICES,
};
use crate::numbers::{are_numbers, coordinate};
use convex_region::{Polygon, PolygonFault};
use exact_geometry::Place;
use std::alloc::{AllocError, Global};
use text_lines::{NumberField, count_fields, next_field};

/// The polygon that the fields after `permit` or `forbid` say.
pub(crate) fn read_polygon(alloc: Global, fields: &[u8]) -> Result<Polygon, LineError>
    ensures { Says result (polygon_row (fields_of fields.now)) }
{
    match places(alloc, fields)? {
        Some(vertices) => polygon_of(alloc, vertices.as_slice()),
        None => Err(LineError::Fault(fault_of(fields))),
    }
}

/// The fault of fields that aren't coordinates in pairs.
fn fault_of(fields: &[u8]) -> u8
    requires { are_places (fields_of fields.now) ≡ false }
    ensures { polygon_row (fields_of fields.now) ≡ Err result }
{
    if count_fields(fields) % 2 != 0 {
        return BAD_LINE;
    }
    if are_numbers(fields) {
        OUT_OF_RANGE
    } else {
        BAD_NUMBER
    }
}

/// The polygon with these vertices in order.
fn polygon_of(alloc: Global, vertices: &[Place]) -> Result<Polygon, LineError>
    ensures { Says result (polygon_from vertices.now) }
{
    match Polygon::build(alloc, vertices) {
        Ok(polygon) => Ok(polygon),
        Err(PolygonFault::TooFewVertices) => Err(LineError::Fault(TOO_FEW_VERTICES)),
        Err(PolygonFault::TooManyVertices) => Err(LineError::Fault(TOO_MANY_VERTICES)),
        Err(PolygonFault::NotConvex { edge: _, vertex: _ }) => Err(LineError::Fault(NOT_CONVEX)),
        Err(PolygonFault::NoMemory) => Err(LineError::NoMemory),
    }
}

/// The place with these coordinates, or none where one of them isn't a coordinate.
fn place(x: &[u8], y: &[u8]) -> Option<Place>
    ensures none { IfNone result (is_place x.now y.now ≡ false) }
    ensures some { IfSome result (λ p. (p ≡ place_from x.now y.now)
        × (is_place x.now y.now ≡ true)) }
{
    match (coordinate(x), coordinate(y)) {
        (NumberField::Value(x), NumberField::Value(y)) => Some(Place::of(x as i32, y as i32)),
        _ => None,
    }
}

/// The places whose coordinates are the fields, in pairs, or none where the fields aren't that.
fn places(alloc: Global, fields: &[u8]) -> Result<Option<Vec<Place>>, AllocError>
    ensures { IfOk result (λ found. MatchOption found (are_places (fields_of fields.now) ≡ false)
        (λ v. (are_places (fields_of fields.now) ≡ true)
        × (v.items ≡ places_of (fields_of fields.now)))) }
{
    let mut places = Vec::new(alloc);
    let mut rest = fields;
    while let Some((x, after)) = next_field(rest) {
        let Some((y, after)) = next_field(after) else {
            return Ok(None);
        };
        let Some(place) = place(x, y) else {
            return Ok(None);
        };
        places.push(place)?;
        rest = after;
    }
    Ok(Some(places))
}
