//! Laws of the lines of an input.

ghost use Rattle.std.specs.Prelude.{◌≡◌, ◌≤◌, ℕ, true, false, List, [], ◌++◌, length};
ghost use Rattle.line_stream.specs.Feeds.{are_feedless};
ghost use Rattle.line_stream.specs.Input.{bytes_of, input_of};

/// The bytes of an input that was read to its end are those of its lines, each with a line feed
/// after it, and of what comes after the last. No line has a line feed, and lines that have none
/// are read as they are, where the limit allows it.
pub fn inputs_are_their_lines()
    ensures bytes { (limit : ℕ) (bytes : List ℕ) → (input_of limit bytes).goes_on ≡ false
        → bytes ≡ bytes_of (input_of limit bytes).lines ++ (input_of limit bytes).partial }
    ensures feedless { (limit : ℕ) (bytes : List ℕ)
        → are_feedless (input_of limit bytes).lines ≡ true }
    ensures back { (limit : ℕ) (lines : List (List ℕ)) → are_feedless lines ≡ true
        → length (bytes_of lines) ≤ limit
        → input_of limit (bytes_of lines)
        ≡ record { lines = lines; partial = []; goes_on = false } }
{}
