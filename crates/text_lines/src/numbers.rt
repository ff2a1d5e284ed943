//! The numbers that fields are.

ghost use Rattle.std.specs.Prelude.{◌≡◌, ◌+◌, ◌*◌, ◌<◌, ◌≤◌, ◌^◌};
ghost use Rattle.std.specs.Option.{option_map};
ghost use Rattle.text_lines.specs.Numbers.{digits_of, number_of, saturated, saturated_size, within};
ghost use Rattle.text_lines.specs.Numbers.{HasSize};

/// What a field is, where a number of at most some size is asked for.
#[derive(Clone, Copy, Debug, PartialEq, Eq)]
pub enum NumberField {
    /// The field isn't a number.
    NotANumber,
    /// It is a number of a greater size.
    Beyond,
    /// It is this number, of at most that size.
    Value(i64),
}

/// The number that a field of one or more digits stands for, or none where the field isn't one.
///
/// Leading zeros are accepted, and a number above 2^64 - 1 is answered as 2^64 - 1.
pub fn digits(field: &[u8]) -> Option<u64>
    ensures { result ≡ option_map saturated (digits_of field.now) }
{
    if field.is_empty() {
        return None;
    }
    let mut value: u64 = 0;
    for byte in field {
        if !byte.is_ascii_digit() {
            return None;
        }
        value = with_digit(value, u64::from(*byte - b'0'));
    }
    Some(value)
}

/// A number with one digit more behind its digits, or 2^64 - 1 where that is above it.
fn with_digit(value: u64, digit: u64) -> u64
    requires { digit ≤ 9 }
    ensures { result ≡ saturated (10 * value + digit) }
{
    if value < 1_000_000_000_000_000_000 {
        10 * value + digit
    } else {
        value.saturating_mul(10).saturating_add(digit)
    }
}

/// The number that a field of digits stands for, with `-` or `+` before them or neither, or none
/// where the field isn't one.
///
/// Leading zeros are accepted, and a size above 2^64 - 1 is answered as 2^64 - 1.
pub fn number(field: &[u8]) -> Option<i128>
    ensures { result ≡ option_map saturated_size (number_of field.now) }
{
    match field {
        [b'-', rest @ ..] => Some(-i128::from(digits(rest)?)),
        [b'+', rest @ ..] => Some(i128::from(digits(rest)?)),
        _ => Some(i128::from(digits(field)?)),
    }
}

/// The number that a field stands for, if its size is at most the limit.
pub fn number_within(field: &[u8], limit: u64) -> NumberField
    requires { limit < 2 ^ 63 }
    ensures value { result ≡ within limit (number_of field.now) }
    ensures size { HasSize limit result }
{
    match number(field) {
        None => NumberField::NotANumber,
        Some(value) if value.unsigned_abs() <= u128::from(limit) => NumberField::Value(
            value as i64,
        ),
        Some(_) => NumberField::Beyond,
    }
}
