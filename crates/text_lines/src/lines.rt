//! The lines of a text.

ghost use Rattle.std.specs.Prelude.{◌≡◌, ◌<◌, ◌∷◌, length};
ghost use Rattle.text_lines.specs.Lines.{pieces_of, without_return as stripped, lines_of};

use memchr::memchr;

/// The first line of a text that isn't empty, and the bytes after it.
///
/// A line ends at a line feed (byte 10) or at the end of the text. It is answered without the line
/// feed and without one carriage return (byte 13) at its end.
pub fn next_line(bytes: &[u8]) -> (&[u8], &[u8])
    requires { 0 < length bytes.now }
    ensures first { lines_of bytes.now ≡ result.0.now ∷ lines_of result.1.now }
    ensures shorter { length result.1.now < length bytes.now }
{
    let (piece, rest) = next_piece(bytes);
    (without_return(piece), rest)
}

/// The bytes before the first line feed, and those after it; all of them where there is none.
fn next_piece(bytes: &[u8]) -> (&[u8], &[u8])
    requires { 0 < length bytes.now }
    ensures first { pieces_of bytes.now ≡ result.0.now ∷ pieces_of result.1.now }
    ensures shorter { length result.1.now < length bytes.now }
{
    match memchr(b'\n', bytes) {
        Some(i) => (&bytes[..i], &bytes[i + 1..]),
        None => (bytes, &[]),
    }
}

/// A piece without one carriage return at its end.
fn without_return(piece: &[u8]) -> &[u8]
    ensures { result.now ≡ stripped piece.now }
{
    match piece {
        [front @ .., b'\r'] => front,
        _ => piece,
    }
}
