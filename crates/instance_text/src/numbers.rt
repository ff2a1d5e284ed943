//! The numbers of a line, each with its range.

ghost use Rattle.std.specs.Prelude.{◌≡◌};
ghost use Rattle.siting_definitions.specs.declared.TheConstants.{COORDINATE_LIMIT, WEIGHT_LIMIT};
ghost use Rattle.text_lines.specs.Lines.{fields_of};
ghost use Rattle.text_lines.specs.Numbers.{HasSize};
ghost use Rattle.instance_text.specs.Rows.{coordinate_of, weight_of};
ghost use Rattle.instance_text.specs.Rows.{cutoff_of, is_number as tells_number};
ghost use Rattle.instance_text.specs.Rows.{are_numbers as tells_numbers, IsCutoff};

use siting_definitions::{COORDINATE_LIMIT, CUTOFF_LIMIT, WEIGHT_LIMIT};
use text_lines::{NumberField, next_field, number_within};

/// The coordinate that a field stands for, in lengths, if its size is at most 1,000,000.
pub(crate) fn coordinate(field: &[u8]) -> NumberField
    ensures value { result ≡ coordinate_of field.now }
    ensures size { HasSize COORDINATE_LIMIT result }
{
    number_within(field, COORDINATE_LIMIT)
}

/// The weight that a field stands for, if its size is at most 16,000,000.
pub(crate) fn weight(field: &[u8]) -> NumberField
    ensures value { result ≡ weight_of field.now }
    ensures size { HasSize WEIGHT_LIMIT result }
{
    number_within(field, WEIGHT_LIMIT)
}

/// The cutoff that a field stands for, in lengths, if it is 1 to 4,000,000.
pub(crate) fn cutoff(field: &[u8]) -> NumberField
    ensures value { result ≡ cutoff_of field.now }
    ensures size { IsCutoff result }
{
    match number_within(field, CUTOFF_LIMIT) {
        NumberField::Value(value) if value < 1 => NumberField::Beyond,
        other => other,
    }
}

/// Whether a field is a number, in its range or not.
pub(crate) fn is_number(value: NumberField) -> bool
    ensures { result ≡ tells_number value }
{
    !matches!(value, NumberField::NotANumber)
}

/// Whether each field is a number.
pub(crate) fn are_numbers(fields: &[u8]) -> bool
    ensures { result ≡ tells_numbers (fields_of fields.now) }
{
    let mut rest = fields;
    while let Some((field, after)) = next_field(rest) {
        if !is_number(coordinate(field)) {
            return false;
        }
        rest = after;
    }
    true
}
