//! The numbers of a line, each with its range.

ghost use Rattle.std.specs.Prelude.{◌≡◌, ◌<◌, ◌≤◌, ◌^◌, IfOk, unsigned_abs};
ghost use Rattle.cover_text.specs.declared.TheConstants.{FINE_LIMIT};
ghost use Rattle.cover_text.specs.Rows.{coordinate_of, natural_of, place_of};

use crate::FINE_LIMIT;
use crate::faults::{BAD_NUMBER, OUT_OF_RANGE};
use edge_chain::Vertex;
use text_lines::{NumberField, number_within};

/// The coordinate that a field stands for, in fine units, if its size is at most 2^31.
fn coordinate(field: &[u8]) -> Result<i64, u8>
    ensures value { result ≡ coordinate_of field.now }
    ensures size { IfOk result (λ z. unsigned_abs z ≤ FINE_LIMIT) }
{
    match number_within(field, FINE_LIMIT) {
        NumberField::NotANumber => Err(BAD_NUMBER),
        NumberField::Beyond => Err(OUT_OF_RANGE),
        NumberField::Value(z) => Ok(z),
    }
}

/// The vertex with these coordinates.
pub(crate) fn vertex(x: &[u8], y: &[u8]) -> Result<Vertex, u8>
    ensures { result ≡ place_of x.now y.now }
{
    let x = match coordinate(x) {
        Ok(x) => x,
        Err(number) => return Err(number),
    };
    match coordinate(y) {
        Ok(y) => Ok(Vertex::of(x, y)),
        Err(number) => Err(number),
    }
}

/// The number that a field stands for, if it is 0 to `limit`.
pub(crate) fn natural(limit: u64, field: &[u8]) -> Result<u64, u8>
    requires { limit < 2 ^ 63 }
    ensures value { result ≡ natural_of limit field.now }
    ensures size { IfOk result (λ n. n ≤ limit) }
{
    match number_within(field, limit) {
        NumberField::NotANumber => Err(BAD_NUMBER),
        NumberField::Beyond => Err(OUT_OF_RANGE),
        NumberField::Value(z) if z < 0 => Err(OUT_OF_RANGE),
        NumberField::Value(z) => Ok(z.unsigned_abs()),
    }
}
