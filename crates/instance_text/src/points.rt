//! The point and the kind of a line.

ghost use Rattle.std.specs.Prelude.{◌≡◌, None, pos};
ghost use Rattle.std.specs.Prelude.{◌≤ℤ◌, MatchOption, ⊤};
ghost use Rattle.siting_definitions.specs.declared.TheConstants.{COORDINATE_LIMIT};
ghost use Rattle.siting_definitions.specs.declared.TheConstants.{WEIGHT_LIMIT, CUTOFF_LIMIT};
ghost use Rattle.text_lines.specs.Lines.{fields_of};
ghost use Rattle.text_lines.specs.Numbers.{HasSize};
ghost use Rattle.instance_text.specs.Rows.{kind_row, demand_of as point_from};
ghost use Rattle.instance_text.specs.Rows.{cut_demand_of as cut_point_from, point_row, IsCutoff};

use crate::faults::{BAD_LINE, BAD_NUMBER, OUT_OF_RANGE, ZERO_WEIGHT};
use crate::numbers::{coordinate, cutoff, is_number, weight};
use site_model::{DemandPt, Kind};
use text_lines::{NumberField, next_field, says};

/// The kind that the fields after `kind` say.
pub(crate) fn read_kind(fields: &[u8]) -> Result<Kind, u8>
    ensures { result ≡ kind_row (fields_of fields.now) }
{
    let Some((word, rest)) = next_field(fields) else {
        return Err(BAD_LINE);
    };
    if next_field(rest).is_some() {
        return Err(BAD_LINE);
    }
    if says(word, b"sum") {
        Ok(Kind::Sum)
    } else if says(word, b"max") {
        Ok(Kind::Max)
    } else {
        Err(BAD_LINE)
    }
}

/// The point that the fields after `point` say, where `cutoffs` says whether a point may have a
/// cutoff.
pub(crate) fn read_point(cutoffs: bool, fields: &[u8]) -> Result<DemandPt, u8>
    ensures { result ≡ point_row cutoffs (fields_of fields.now) }
{
    let Some((x, rest)) = next_field(fields) else {
        return Err(BAD_LINE);
    };
    let Some((y, rest)) = next_field(rest) else {
        return Err(BAD_LINE);
    };
    let Some((w, rest)) = next_field(rest) else {
        return Err(BAD_LINE);
    };
    let Some((cut, rest)) = next_field(rest) else {
        return point_of(coordinate(x), coordinate(y), weight(w), None);
    };
    if next_field(rest).is_some() {
        return Err(BAD_LINE);
    }
    if !cutoffs {
        return Err(BAD_LINE);
    }
    cut_point_of(coordinate(x), coordinate(y), weight(w), cutoff(cut))
}

/// The point with a cutoff of these numbers.
fn cut_point_of(
    x: NumberField,
    y: NumberField,
    w: NumberField,
    cut: NumberField,
) -> Result<DemandPt, u8>
    requires x { HasSize COORDINATE_LIMIT x }
    requires y { HasSize COORDINATE_LIMIT y }
    requires w { HasSize WEIGHT_LIMIT w }
    requires cut { IsCutoff cut }
    ensures { result ≡ cut_point_from x y w cut }
{
    match cut {
        NumberField::NotANumber => Err(BAD_NUMBER),
        NumberField::Beyond if is_number(x) & is_number(y) & is_number(w) => Err(OUT_OF_RANGE),
        NumberField::Beyond => Err(BAD_NUMBER),
        NumberField::Value(cut) => point_of(x, y, w, Some(cut as i32)),
    }
}

/// The point of these numbers.
fn point_of(
    x: NumberField,
    y: NumberField,
    w: NumberField,
    cut: Option<i32>,
) -> Result<DemandPt, u8>
    requires x { HasSize COORDINATE_LIMIT x }
    requires y { HasSize COORDINATE_LIMIT y }
    requires w { HasSize WEIGHT_LIMIT w }
    requires cut { MatchOption cut ⊤ (λ c. (pos 1 ≤ℤ c) × (c ≤ℤ pos CUTOFF_LIMIT)) }
    ensures { result ≡ point_from x y w cut }
{
    match (x, y, w) {
        (NumberField::NotANumber, _, _)
        | (_, NumberField::NotANumber, _)
        | (_, _, NumberField::NotANumber) => Err(BAD_NUMBER),
        (NumberField::Value(_), NumberField::Value(_), NumberField::Value(0)) => Err(ZERO_WEIGHT),
        (NumberField::Value(x), NumberField::Value(y), NumberField::Value(w)) => Ok(DemandPt::of(
            x as i32, y as i32, w, cut,
        )),
        _ => Err(OUT_OF_RANGE),
    }
}
