//! The forms of the lines of an answer.

ghost use Rattle.std.specs.Prelude.{◌≡◌, option_map};
ghost use Rattle.std.specs.Option.{option_and_then};
ghost use Rattle.std.specs.Str.{bytes_eq};
ghost use Rattle.std.specs.Fmt.{signed_decimal};
ghost use Rattle.text_lines.specs.Numbers.{saturated_size, number_of};
ghost use Rattle.certificate.specs.Forms as forms;
ghost use Rattle.certificate.specs.FormParts.{space_first, root_fields};

use crate::reader::Item;
use crate::reader::head_parts::Priced;
use dyadic_square::Square;
use site_model::Site;
use siting_definitions::{Mark, Word};
use text_lines::{number, says};

/// Whether a field is this number as it is written.
fn is_written(value: i64, field: &[u8]) -> bool
    ensures { result ≡ bytes_eq (signed_decimal value) field.now }
{
    let mut digits = itoa::Buffer::new();
    digits.format(value).as_bytes() == field
}

/// The number, where it is from `low` to `high`.
fn ranged(low: i64, high: i64, value: i128) -> Option<i64>
    ensures { result ≡ forms.ranged low high value }
{
    if value < i128::from(low) {
        return None;
    }
    if i128::from(high) < value {
        return None;
    }
    Some(value as i64)
}

/// The number, where a field is this number as it is written.
fn if_written(value: i64, field: &[u8]) -> Option<i64>
    ensures { result ≡ forms.only_if (bytes_eq (signed_decimal value) field.now) value }
{
    if is_written(value, field) {
        Some(value)
    } else {
        None
    }
}

/// The number from `low` to `high` that a field is.
fn number_in(low: i64, high: i64, field: &[u8]) -> Option<i64>
    ensures { result ≡ option_and_then (forms.ranged low high)
        (option_map saturated_size (number_of field.now)) }
{
    ranged(low, high, number(field)?)
}

/// The number from `low` to `high` that a field is, written in canonical decimal.
fn canonical(low: i64, high: i64, field: &[u8]) -> Option<i64>
    ensures { result ≡ forms.canonical_within low high field.now }
{
    if_written(number_in(low, high, field)?, field)
}

/// What stands after a space, where one stands first.
fn after_space(bytes: &[u8]) -> Option<&[u8]>
    ensures { option_map (λ rest. rest.now) result ≡ space_first bytes.now }
{
    match bytes {
        [b' ', rest @ ..] => Some(rest),
        _ => None,
    }
}

/// What stands after a word and one space.
fn after_word<'x>(word: &[u8], line: &'x [u8]) -> Option<&'x [u8]>
    ensures { option_map (λ rest. rest.now) result ≡ forms.after_word word.now line.now }
{
    after_space(line.strip_prefix(word)?)
}

/// What stands before the first space, and what after it.
fn at_space(bytes: &[u8]) -> Option<(&[u8], &[u8])>
    ensures { option_map (λ parts. (parts.0.now, parts.1.now)) result
        ≡ forms.at_space bytes.now }
{
    for (i, byte) in bytes.iter().enumerate() {
        if *byte == b' ' {
            return Some((&bytes[..i], &bytes[i + 1..]));
        }
    }
    None
}

/// A line of a word and a number from `low` to `high`: the number.
pub(super) fn number_form(word: &[u8], low: i64, high: i64, line: &[u8]) -> Option<i64>
    ensures { result ≡ forms.number_form word.now low high line.now }
{
    canonical(low, high, after_word(word, line)?)
}

/// Two numbers from `low` to `high`, with one space between them.
fn two_numbers(low: i64, high: i64, bytes: &[u8]) -> Option<(i64, i64)>
    ensures { result ≡ forms.two_numbers (forms.canonical_within low high) bytes.now }
{
    let (first, second) = at_space(bytes)?;
    let a = canonical(low, high, first)?;
    let b = canonical(low, high, second)?;
    Some((a, b))
}

/// Whether this is the word that says that a value is absent.
fn is_none(bytes: &[u8]) -> bool
    ensures { result ≡ forms.is_none bytes.now }
{
    says(bytes, b"none")
}

/// The first line: whether it says the second version of the text.
pub(super) fn version_form(line: &[u8]) -> Option<bool>
    ensures { result ≡ forms.version_form line.now }
{
    if says(line, b"siting answer 1") {
        Some(false)
    } else if says(line, b"siting answer 2") {
        Some(true)
    } else {
        None
    }
}

/// How far a coordinate of a site may be from 0, in grid units.
const FARTHEST: i64 = 1 << 38;

/// A site, or none.
fn site_in(bytes: &[u8]) -> Option<Option<Site>>
    ensures { result ≡ forms.site_in bytes.now }
{
    if is_none(bytes) {
        return Some(None);
    }
    let (x, y) = two_numbers(-FARTHEST, FARTHEST, bytes)?;
    Some(Some(Site { x, y }))
}

/// The line of the site.
pub(super) fn site_form(line: &[u8]) -> Option<Option<Site>>
    ensures { result ≡ forms.site_form line.now }
{
    site_in(after_word(b"site", line)?)
}

/// The costs of a site.
fn costs_in(bytes: &[u8]) -> Option<(i64, i64)>
    ensures { result ≡ forms.two_numbers forms.canonical_64 bytes.now }
{
    two_numbers(i64::MIN, i64::MAX, bytes)
}

/// The site with the costs that a line says: none exactly where there is no site.
pub(super) fn priced_form(site: Option<Site>, line: &[u8]) -> Option<Priced>
    ensures { result ≡ forms.cost_form site line.now }
{
    let bytes = after_word(b"cost", line)?;
    match site {
        None if is_none(bytes) => Some(Priced {
            site: None,
            cost: None,
        }),
        None => None,
        Some(site) => Some(Priced {
            site: Some(site),
            cost: Some(costs_in(bytes)?),
        }),
    }
}

/// A number of 64 bits, or none.
fn optional_number(bytes: &[u8]) -> Option<Option<i64>>
    ensures { result ≡ forms.optional_number bytes.now }
{
    if is_none(bytes) {
        return Some(None);
    }
    Some(Some(canonical(i64::MIN, i64::MAX, bytes)?))
}

/// The line of the bound.
pub(super) fn bound_form(line: &[u8]) -> Option<Option<i64>>
    ensures { result ≡ forms.bound_form line.now }
{
    optional_number(after_word(b"bound", line)?)
}

/// The word that these bytes are.
fn word_in(bytes: &[u8]) -> Option<Word>
    ensures { result ≡ forms.word_in bytes.now }
{
    if says(bytes, b"solved") {
        Some(Word::Solved)
    } else if says(bytes, b"pool_full") {
        Some(Word::PoolFull)
    } else if says(bytes, b"budget") {
        Some(Word::Budget)
    } else if says(bytes, b"floor") {
        Some(Word::Floor)
    } else if says(bytes, b"empty") {
        Some(Word::Empty)
    } else {
        None
    }
}

/// The line of the word.
pub(super) fn word_form(line: &[u8]) -> Option<Word>
    ensures { result ≡ forms.word_form line.now }
{
    word_in(after_word(b"answer", line)?)
}

/// What stands after this number, as it is written, and one space.
fn after_number(value: i64, line: &[u8]) -> Option<&[u8]>
    ensures { option_map (λ rest. rest.now) result
        ≡ forms.after_word (signed_decimal value) line.now }
{
    let mut digits = itoa::Buffer::new();
    after_word(digits.format(value).as_bytes(), line)
}

/// The root, where these bytes are its corner and its level.
fn root_in(root: Square, line: &[u8]) -> Option<Square>
    ensures { result ≡ root_fields root line.now }
{
    let x = after_word(b"root", line)?;
    let y = after_number(root.x, x)?;
    let level = after_number(root.y, y)?;
    if is_written(i64::from(root.level), level) {
        Some(root)
    } else {
        None
    }
}

/// The root, where a line is the one of it.
pub(super) fn root_form(root: Square, line: &[u8]) -> Option<Square>
    ensures { result ≡ forms.root_form root line.now }
{
    root_in(root, line)
}

/// The mark with this letter and this number.
fn lettered(letter: u8, value: i64) -> Option<Mark>
    ensures { result ≡ forms.lettered letter value }
{
    match letter {
        b'S' => Some(Mark::Split(Some(value))),
        b'B' => Some(Mark::Bounded(value)),
        b'F' => Some(Mark::Floor(value)),
        b'O' => Some(Mark::Left(value)),
        _ => None,
    }
}

/// The mark of a line of a letter, a space and a number.
fn numbered_mark(line: &[u8]) -> Option<Mark>
    ensures { result ≡ forms.numbered_mark line.now }
{
    match line {
        [letter, b' ', rest @ ..] => lettered(*letter, canonical(i64::MIN, i64::MAX, rest)?),
        _ => None,
    }
}

/// A node line, or the last line.
pub(super) fn item_form(line: &[u8]) -> Option<Item>
    ensures { result ≡ forms.item_form line.now }
{
    if says(line, b"end") {
        Some(Item::End)
    } else if says(line, b"X") {
        Some(Item::Node(Mark::Shut))
    } else if says(line, b"S -") {
        Some(Item::Node(Mark::Split(None)))
    } else {
        Some(Item::Node(numbered_mark(line)?))
    }
}
