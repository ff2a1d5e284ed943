//! The shift, the tile, the ring and the triangle of a line.

ghost use Rattle.std.specs.Prelude.{◌≡◌, ◌<◌, ◌≤◌, Ok, Err, IfOk, MatchResult, length};
ghost use Rattle.siting_definitions.specs.Point as points;
ghost use Rattle.text_lines.specs.Lines.{fields_of};
ghost use Rattle.cover_text.specs.Rows as rows;
ghost use Rattle.cover_text.specs.Rows.{vertex_of};
ghost use Rattle.cover_text.specs.Outcome.{Says, Refuses};

use crate::faults::{BAD_LINE, EMPTY_TILE, LineError, TOO_FEW_VERTICES};
use crate::numbers::{natural, vertex};
use crate::{OWNER_LIMIT, SHIFT_LIMIT};
use cover_check::{Owned, Ring, Tile, Triangle};
use edge_chain::Vertex;
use std::alloc::Global;
use text_lines::next_field;

/// The shift that the fields after `shift` say.
pub(crate) fn read_shift(fields: &[u8]) -> Result<u8, u8>
    ensures value { result ≡ rows.shift_row (fields_of fields.now) }
    ensures size { IfOk result (λ shift. shift ≤ 20) }
{
    let Some((field, rest)) = next_field(fields) else {
        return Err(BAD_LINE);
    };
    if next_field(rest).is_some() {
        return Err(BAD_LINE);
    }
    match natural(SHIFT_LIMIT, field) {
        Ok(shift) => Ok(shift as u8),
        Err(number) => Err(number),
    }
}

/// The vertex that the first two fields say, and what comes after them.
fn read_vertex(fields: &[u8]) -> Result<(Vertex, &[u8]), u8>
    ensures value { MatchResult result
        (λ r. vertex_of (fields_of fields.now) ≡ Ok (r.0, fields_of r.1.now))
        (λ number. vertex_of (fields_of fields.now) ≡ Err number) }
    ensures shorter { IfOk result (λ r. length r.1.now < length fields.now) }
{
    let Some((x, rest)) = next_field(fields) else {
        return Err(BAD_LINE);
    };
    let Some((y, rest)) = next_field(rest) else {
        return Err(BAD_LINE);
    };
    match vertex(x, y) {
        Ok(v) => Ok((v, rest)),
        Err(number) => Err(number),
    }
}

/// The tile that the fields after `tile` say.
pub(crate) fn read_tile(fields: &[u8]) -> Result<Tile, u8>
    ensures { result ≡ rows.tile_row (fields_of fields.now) }
{
    let (low, rest) = match read_vertex(fields) {
        Ok(read) => read,
        Err(number) => return Err(number),
    };
    let (high, rest) = match read_vertex(rest) {
        Ok(read) => read,
        Err(number) => return Err(number),
    };
    if next_field(rest).is_some() {
        return Err(BAD_LINE);
    }
    tile_of(low, high)
}

/// The tile with these corners.
fn tile_of(low: Vertex, high: Vertex) -> Result<Tile, u8>
    ensures { result ≡ rows.tile_of low high }
{
    if high.x < low.x || high.y < low.y {
        return Err(EMPTY_TILE);
    }
    Ok(Tile::of(low.x, low.y, high.x, high.y))
}

/// The owner that the last field of a triangle says.
fn read_owner(fields: &[u8]) -> Result<Option<u32>, u8>
    ensures { result ≡ rows.owner_row (fields_of fields.now) }
{
    let Some((field, rest)) = next_field(fields) else {
        return Err(BAD_LINE);
    };
    if next_field(rest).is_some() {
        return Err(BAD_LINE);
    }
    match natural(OWNER_LIMIT, field) {
        Ok(0) => Ok(None),
        Ok(owner) => Ok(Some(owner as u32 - 1)),
        Err(number) => Err(number),
    }
}

/// The triangle that the fields after `triangle` say, on this line.
pub(crate) fn read_triangle(line: u64, fields: &[u8]) -> Result<Owned, u8>
    ensures { result ≡ rows.triangle_row line (fields_of fields.now) }
{
    let (a, rest) = match read_vertex(fields) {
        Ok(read) => read,
        Err(number) => return Err(number),
    };
    let (b, rest) = match read_vertex(rest) {
        Ok(read) => read,
        Err(number) => return Err(number),
    };
    let (c, rest) = match read_vertex(rest) {
        Ok(read) => read,
        Err(number) => return Err(number),
    };
    match read_owner(rest) {
        Ok(owner) => Ok(Owned {
            triangle: Triangle { a, b, c },
            owner,
            line,
        }),
        Err(number) => Err(number),
    }
}

/// The vertices that the fields are, in pairs.
fn read_vertices(alloc: Global, fields: &[u8]) -> Result<Vec<Vertex>, LineError>
    ensures { MatchResult result (λ v. rows.vertices_of (fields_of fields.now) ≡ Ok v.items)
        (λ error. Refuses error (rows.vertices_of (fields_of fields.now))) }
{
    let mut vertices = Vec::new(alloc);
    let mut rest = fields;
    'pairs: while next_field(rest).is_some() {
        let (v, after) = match read_vertex(rest) {
            Ok(read) => read,
            Err(number) => return Err(LineError::Fault(number)),
        };
        if vertices.push(v).is_err() {
            return Err(LineError::NoMemory);
        }
        rest = after;
    }
    Ok(vertices)
}

/// The ring that the fields after `region` or `forbidden` say.
pub(crate) fn read_ring(alloc: Global, fields: &[u8]) -> Result<Ring, LineError>
    ensures { Says result (rows.ring_row (fields_of fields.now)) }
{
    match read_vertices(alloc, fields) {
        Ok(vertices) if vertices.len() < 3 => Err(LineError::Fault(TOO_FEW_VERTICES)),
        Ok(vertices) => Ok(Ring::of(vertices)),
        Err(error) => Err(error),
    }
}
