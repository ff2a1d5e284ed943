//! Reading the text of an answer as a stream.

ghost use Rattle.std.specs.Prelude.{◌≡◌, IfSome, option_map};
ghost use Rattle.certificate.specs.Forms.{item_form as form_of_item};
ghost use Rattle.certificate.specs.HeadReading.{answer_error, coming_of, formed, end_of};
ghost use Rattle.certificate.specs.ReaderView.{coming, source_of, faults_of, line_of, stream_of};
ghost use Rattle.certificate.specs.ReaderView.{stream_over, ReadsTo, EndsAs, TakesNone};
ghost use Rattle.certificate.specs.AnswerReading.{Read, EndRead};
ghost use Rattle.certificate.specs.Beginnings.{start_of};
ghost use Rattle.certificate.specs.Blames.{Blames};

mod beginning;
mod canonical;
mod forms;
mod head;
mod head_parts;
mod instance;
mod lines;
#[cfg(test)]
mod tests;

use line_stream::{LineError, Lines};
use lines::{read_end, read_item};
use port_io::Source;
use siting_definitions::{CHECK_LIMIT, Mark};
use thiserror::Error;

/// The lines of an answer.
type AnswerLines = Lines<CHECK_LIMIT>;

/// A line after the head.
#[derive(Clone, Copy, Debug, PartialEq, Eq)]
pub enum Item {
    /// The line of a node of the tree, in preorder.
    Node(Mark),
    /// The last line.
    End,
}

/// Why the text of an answer was not read further.
#[derive(Debug, Drop, Error)]
pub enum AnswerError {
    /// This line isn't of its form, or is missing.
    #[error("line {line} of the answer isn't of its form")]
    Form {
        /// The number of the line, from 1.
        line: u64,
    },
    /// The lines of the instance aren't the canonical text of an instance of the version that the
    /// first line says.
    #[error("the instance in the answer isn't in canonical form")]
    Instance,
    /// More bytes came than an answer may have, which is 2^30, and no fault before.
    #[error("the answer is longer than the limit")]
    TooLong,
    /// The source failed.
    #[error("reading failed")]
    ReadFault,
    /// No memory was left.
    #[error("out of memory")]
    NoMemory,
}

impl From<LineError> for AnswerError {
    ghost from_gives = { λ error e. e ≡ answer_error error };

    fn from(error: LineError) -> AnswerError {
        match error {
            LineError::Missing { line } => AnswerError::Form { line },
            LineError::Surplus { line } => AnswerError::Form { line },
            LineError::TooLong => AnswerError::TooLong,
            LineError::Failed => AnswerError::ReadFault,
        }
    }
}

/// The text of an answer, read from a source line by line.
///
/// It reads on only where it holds no whole line, so that what stands before a fault is answered
/// without waiting for what comes after it. The head is read first, then one node line after
/// another and the last line, and then `finish` is called. Reading the head alone takes memory. No
/// call may follow one that failed.
#[derive(Drop)]
pub struct AnswerReader<'a, S: Source> {
    source: &'a mut S,
    lines: AnswerLines,
}

impl<'a, S: Source> AnswerReader<'a, S> {
    /// The reader of the text that the source gives, with nothing read yet.
    pub fn new(source: &'a mut S) -> AnswerReader<'a, S>
        ensures same { source_of result ≡ source.entry.ghost_name }
        ensures coming { coming S.left result ≡ option_map coming_of (S.left source.old) }
        ensures stream { stream_of S.left S.faults S.is_strict result
            ≡ start_of (S.left source.old) (S.faults source.old) S.is_strict }
    {
        AnswerReader {
            source,
            lines: Lines::new(),
        }
    }

    /// Reads one line: a node line or the last one.
    pub fn next(&mut self) -> Result<Item, AnswerError>
        ensures same { source_of self.new ≡ source_of self.old }
        ensures reads { IfSome (coming S.left self.old)
            (λ before. ReadsTo (formed form_of_item before) (coming S.left self.new) result) }
        ensures memory { TakesNone result }
        ensures blames { Blames (faults_of S.faults self.old) (faults_of S.faults self.new) result }

        // The bytes that were read settle the answer, and no more of them were read than that took.
        ensures read { Read (formed form_of_item) (stream_of S.left S.faults S.is_strict self.old)
            (stream_of S.left S.faults S.is_strict self.new) result }
    {
        read_item(&mut self.lines, self.source)
    }

    /// The number of the last line read.
    pub fn line(&self) -> u64
        ensures { result ≡ line_of self.now }
    {
        self.lines.line()
    }

    /// Ends the reading after the last line: `Ok` exactly where the input ends there.
    pub fn finish(self) -> Result<(), AnswerError>
        ensures ends { IfSome (coming S.left self.entry)
            (λ before. EndsAs (end_of before) (S.left self.exit.0.now) result) }
        ensures memory { TakesNone result }
        ensures blames { Blames (faults_of S.faults self.entry) (S.faults self.exit.0.now) result }

        // As in `next`.
        ensures read { EndRead (stream_of S.left S.faults S.is_strict self.entry)
            (stream_over S.left S.faults S.is_strict self.entry self.exit.0.now) result }
    {
        let AnswerReader { source, mut lines } = self;
        read_end(&mut lines, source)
    }
}
