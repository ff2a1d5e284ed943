//! Reading the lines of an answer, one after another.

ghost use Rattle.std.specs.Prelude.{◌≡◌, ok_or};
ghost use Rattle.line_stream.specs.Stream.{stream};
ghost use Rattle.certificate.specs.HeadReading.{formed};
ghost use Rattle.certificate.specs.Forms.{item_form as form_of_item};
ghost use Rattle.certificate.specs.AnswerReading.{Read, EndRead};

use crate::reader::forms::item_form;
use crate::reader::{AnswerError, AnswerLines, Item};
use port_io::Source;

/// The value, or the error that this line isn't of its form.
pub(super) fn or_bad<T>(value: Option<T>, line: u64) -> Result<T, AnswerError>
    ensures { result ≡ ok_or value (AnswerError.Form line) }
{
    value.ok_or(AnswerError::Form { line })
}

/// Reads a node line or the last line.
pub(super) fn read_item<S: Source>(
    lines: &mut AnswerLines,
    source: &mut S,
) -> Result<Item, AnswerError>
    ensures { Read (formed form_of_item) (stream S.left S.faults S.is_strict lines.old source.old)
        (stream S.left S.faults S.is_strict lines.new source.new) result }
{
    lines.read_line(source)?;
    or_bad(item_form(lines.text()), lines.line())
}

/// Ends the reading: `Ok` exactly where the input ends here.
pub(super) fn read_end<S: Source>(
    lines: &mut AnswerLines,
    source: &mut S,
) -> Result<(), AnswerError>
    ensures { EndRead (stream S.left S.faults S.is_strict lines.old source.old)
        (stream S.left S.faults S.is_strict lines.new source.new) result }
{
    lines.read_end(source)?;
    Ok(())
}
