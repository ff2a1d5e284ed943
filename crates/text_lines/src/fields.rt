//! The fields of a line.

ghost use Rattle.std.specs.Prelude.{◌≡◌, ◌<◌, ◌≤◌, false, true, [], ◌∷◌, length, take, drop};
ghost use Rattle.std.specs.Prelude.{IfSome, IfNone};
ghost use Rattle.std.specs.Str.{bytes_eq};
ghost use Rattle.text_lines.specs.Lines.{is_gap as is_gap_byte, begins_with_gap, fields_of};
ghost use Rattle.text_lines.specs.Lines.{is_passed_over as is_passed};

/// The first field of a line and the bytes after it, or none where the line is blank.
///
/// A field is a longest run of bytes other than space and tab.
pub fn next_field(line: &[u8]) -> Option<(&[u8], &[u8])>
    ensures none { IfNone result (fields_of line.now ≡ []) }
    ensures some { IfSome result (λ f. (fields_of line.now ≡ f.0.now ∷ fields_of f.1.now)
        × (length f.1.now < length line.now)) }
{
    let start = past_gap(line);
    if start.is_empty() {
        return None;
    }
    let end = field_end(start);
    Some((&start[..end], &start[end..]))
}

/// How many fields a line has.
pub fn count_fields(line: &[u8]) -> usize
    ensures { result ≡ length (fields_of line.now) }
{
    let mut count = 0;
    let mut rest = line;
    while let Some((_, after)) = next_field(rest) {
        count += 1;
        rest = after;
    }
    count
}

/// Whether a line is blank or a comment: its first byte other than space and tab is `#`.
pub fn is_passed_over(line: &[u8]) -> bool
    ensures { result ≡ is_passed (fields_of line.now) }
{
    match next_field(line) {
        None => true,
        Some((field, _)) => matches!(field, [b'#', ..]),
    }
}

/// Whether a field is this word.
pub fn says(field: &[u8], word: &[u8]) -> bool
    ensures { result ≡ bytes_eq field.now word.now }
{
    field == word
}

/// Whether a byte is a space or a tab.
fn is_gap(byte: u8) -> bool
    ensures { result ≡ is_gap_byte byte }
{
    byte == b' ' || byte == b'\t'
}

/// The bytes of a line from its first field on, or none where the line is blank.
fn past_gap(line: &[u8]) -> &[u8]
    ensures fields { fields_of line.now ≡ fields_of result.now }
    ensures start { 0 < length result.now → begins_with_gap result.now ≡ false }
    ensures shorter { length result.now ≤ length line.now }
{
    let mut rest = line;
    while let [first, after @ ..] = rest {
        if !is_gap(*first) {
            return rest;
        }
        rest = after;
    }
    rest
}

/// How many bytes the field has that these bytes begin with.
fn field_end(start: &[u8]) -> usize
    requires some { 0 < length start.now }
    requires begins { begins_with_gap start.now ≡ false }
    ensures within { (0 < result) × (result ≤ length start.now) }
    ensures first { fields_of start.now
        ≡ take result start.now ∷ fields_of (drop result start.now) }
{
    for (i, byte) in start.iter().enumerate() {
        if is_gap(*byte) {
            return i;
        }
    }
    start.len()
}
