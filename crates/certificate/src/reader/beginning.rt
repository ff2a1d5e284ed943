//! Beginning to read an answer: its head.

ghost use Rattle.std.specs.Prelude.{◌≡◌, IfOk, IfSome};
ghost use Rattle.std.specs.Borrow.{sem, RestsIfErr};
ghost use Rattle.line_stream.specs.Stream.{stream};
ghost use Rattle.certificate.specs.HeadReading.{coming_of, head_reading};
ghost use Rattle.certificate.specs.ReaderView.{coming, source_of, stream_of, BeginsAs};
ghost use Rattle.certificate.specs.Beginnings.{coming_then, start_of, ReadsHead, BeginRead};
ghost use Rattle.certificate.specs.Beginnings.{HeadRead, LeavesAs};

use crate::reader::head::read_head_lines;
use crate::reader::{AnswerError, AnswerLines, AnswerReader};
use answer_model::Head;
use line_stream::Lines;
use port_io::Source;
use std::alloc::Global;

/// The head of an answer, and how far its text was read with it.
struct Beginning {
    head: Head,
    lines: AnswerLines,
}

/// Reads the head of the text that the source gives, to the line of its root.
fn read_beginning<S: Source>(alloc: Global, source: &mut S) -> Result<Beginning, AnswerError>
    ensures reads { IfSome (S.left source.old)
        (λ bytes. ReadsHead (head_reading (coming_of bytes)) (S.left source.new) result) }
    ensures read { BeginRead (start_of (S.left source.old) (S.faults source.old) S.is_strict)
        (S.left source.new) (S.faults source.new) result }
{
    let mut lines = Lines::new();
    let head = read_head_lines(alloc, &mut lines, source)?;
    Ok(Beginning { head, lines })
}

impl<'a, S: Source> AnswerReader<'a, S> {
    /// The reader of what comes after a beginning, and the head that was read.
    fn after(source: &'a mut S, beginning: Beginning) -> (AnswerReader<'a, S>, Head)
        ensures same { source_of result.0 ≡ source.entry.ghost_name }
        ensures coming { coming S.left result.0 ≡ coming_then (S.left source.old) beginning }
        ensures stream { stream_of S.left S.faults S.is_strict result.0
            ≡ stream S.left S.faults S.is_strict beginning.lines source.old }
        ensures head { result.1 ≡ beginning.head }
    {
        let Beginning { head, lines } = beginning;
        (AnswerReader { source, lines }, head)
    }

    /// The reader of the text that the source gives, with its head read, to the line of its root.
    ///
    /// It is `new` and then `read_head`. At an error the reader is gone; what is known then of the
    /// source is what `read_head` says.
    pub fn begin(
        alloc: Global,
        source: &'a mut S,
    ) -> Result<(AnswerReader<'a, S>, Head), AnswerError>
        ensures* leaves { sem 𝓛 (RestsIfErr S.row source.entry
            (λ begun. source_of begun.0) result
            (λ last. LeavesAs (start_of (S.left source.old) (S.faults source.old) S.is_strict)
            (S.left last) (S.faults last) result)) }
        ensures same { IfOk result (λ begun. source_of begun.0 ≡ source.entry.ghost_name) }
        ensures read { IfOk result (λ begun.
            HeadRead S.left S.faults
            (start_of (S.left source.old) (S.faults source.old) S.is_strict) begun) }
        ensures reads { IfSome (S.left source.old)
            (λ bytes. BeginsAs S.left (head_reading (coming_of bytes)) result) }
    {
        match read_beginning(alloc, source) {
            Ok(beginning) => Ok(AnswerReader::after(source, beginning)),
            Err(error) => Err(error),
        }
    }
}
