//! Reading the lines of a source, one after another.

ghost use Rattle.std.specs.Prelude.{◌≡◌, ◌<◌, ◌≤◌, ◌-◌, [], false, length, nat_lt, IsOk, IfOk};
ghost use Rattle.port_io.specs.Bytes.{piece_size};
ghost use Rattle.line_stream.specs.Stream.{stream};
ghost use Rattle.line_stream.specs.LineReading.{Filled, FrontRead, PieceRead, LineRead, RestRead};
ghost use Rattle.line_stream.specs.LineReading.{LinesEndRead, surplus_of};

use crate::ahead::Ahead;
use crate::so_far::ReadSoFar;
use port_io::{Buffer, Failed, Source};
use std::marker::Model;
use thiserror::Error;

/// Why no line was read, or why the input doesn't end.
#[derive(Clone, Copy, Debug, PartialEq, Eq, Error)]
pub enum LineError {
    /// The input ends before the line feed of this line.
    #[error("line {line} is missing")]
    Missing {
        /// The number of the line, from 1.
        line: u64,
    },
    /// A byte of this line comes where the input was to end.
    #[error("line {line} is one too many")]
    Surplus {
        /// The number of the line, from 1.
        line: u64,
    },
    /// More bytes came than the limit allows, and no line feed before.
    #[error("the input is longer than the limit")]
    TooLong,
    /// The source failed.
    #[error("reading failed")]
    Failed,
}

/// The lines of a source, of which `LIMIT` bytes may be read.
///
/// A line is kept where it has fewer than 4,096 bytes. No call may follow one that failed.
#[derive(Drop)]
pub struct Lines<const LIMIT: u32> {
    ahead: Ahead,
    kept: Buffer,
    so_far: ReadSoFar<LIMIT>,
}

impl<const LIMIT: u32> Model for Lines<LIMIT> {
    ghost use Rattle.std.specs.Prelude.{◌≤◌};
    ghost use Rattle.line_stream.specs.Stream.{LinesState};

    ghost Value = { LinesState };

    ghost view = { λ l. record {
      read = l.so_far.read;
      line = l.so_far.line;
      ahead = l.ahead;
      kept = l.kept;
    } };

    ghost invariant = { λ l. l.so_far.read ≤ LIMIT };
}

impl<const LIMIT: u32> Lines<LIMIT> {
    /// The lines of a source of which nothing was read yet.
    pub fn new() -> Lines<LIMIT>
        ensures { result ≡ record { read = 0; line = 0; ahead = []; kept = [] } }
    {
        Lines {
            ahead: Ahead::new(),
            kept: Buffer::new(),
            so_far: ReadSoFar::new(),
        }
    }

    /// The number of the last line read, 0 before the first.
    pub fn line(&self) -> u64
        ensures value { result ≡ self.now.line }
        ensures many { result ≤ LIMIT }
    {
        self.so_far.line()
    }

    /// The bytes that the last call kept.
    pub fn text(&self) -> &[u8]
        ensures { result.now ≡ self.now.kept }
    {
        self.kept.as_slice()
    }

    /// Reads on where nothing is held, and says whether a byte is still to come.
    fn has_more<S: Source>(&mut self, source: &mut S) -> Result<bool, Failed>
        ensures { Filled LIMIT (stream S.left S.faults S.is_strict self.old source.old)
            (stream S.left S.faults S.is_strict self.new source.new) result }
    {
        if !self.ahead.is_empty() {
            return Ok(true);
        }
        self.ahead.fill(source)
    }

    /// How many more bytes may be read.
    fn bytes_left(&self) -> usize
        ensures { result ≡ LIMIT - self.now.read }
    {
        self.so_far.left()
    }

    /// Lets go of the line that was kept.
    fn begin_line(&mut self)
        ensures { self.new ≡ record self.old { kept = [] } }
    {
        self.kept.clear();
    }

    /// Whether more of the line can be kept.
    fn has_space(&self) -> bool
        ensures { result ≡ nat_lt (length self.now.kept) piece_size }
    {
        self.kept.space() > 0
    }

    /// Keeps a front of the line that comes, from what is held, and says whether its line feed
    /// came, too.
    fn take_front(&mut self) -> bool
        ensures { FrontRead LIMIT self.old self.new result }
    {
        let (count, found) = self.ahead.give(self.so_far.left(), &mut self.kept);
        self.so_far.advance(count, found);
        found
    }

    /// Keeps the line that comes, or its next 4,096 bytes, and says whether its line feed came.
    pub fn read_piece<S: Source>(&mut self, source: &mut S) -> Result<bool, LineError>
        ensures reads { PieceRead LIMIT (stream S.left S.faults S.is_strict self.old source.old)
            (stream S.left S.faults S.is_strict self.new source.new) result }
        ensures full { IfOk result (λ feed. feed ≡ false → length self.new.kept ≡ piece_size) }
        ensures more { IsOk result
            → (self.old.read < self.new.read) × (self.new.read ≤ LIMIT) }
    {
        self.begin_line();
        while self.has_space() {
            match self.has_more(source) {
                Ok(true) => {}
                Ok(false) => {
                    return Err(LineError::Missing {
                        line: self.line() + 1,
                    });
                }
                Err(_) => return Err(LineError::Failed),
            }
            if self.bytes_left() == 0 {
                return Err(LineError::TooLong);
            }
            if self.take_front() {
                return Ok(true);
            }
        }
        Ok(false)
    }

    /// Reads the rest of a line, and keeps none of it.
    fn skip_line<S: Source>(&mut self, source: &mut S) -> Result<(), LineError>
        ensures { RestRead LIMIT (stream S.left S.faults S.is_strict self.old source.old)
            (stream S.left S.faults S.is_strict self.new source.new) result }
    {
        while !self.read_piece(source)? {}
        self.begin_line();
        Ok(())
    }

    /// Reads a line. It is kept where it has fewer than 4,096 bytes, and else nothing is.
    pub fn read_line<S: Source>(&mut self, source: &mut S) -> Result<(), LineError>
        ensures { LineRead LIMIT (stream S.left S.faults S.is_strict self.old source.old)
            (stream S.left S.faults S.is_strict self.new source.new) result }
    {
        if self.read_piece(source)? {
            return Ok(());
        }
        self.skip_line(source)
    }

    /// The error of a byte that comes where the input was to end.
    fn surplus(&self) -> LineError
        ensures { result ≡ surplus_of LIMIT self.now }
    {
        if self.bytes_left() == 0 {
            return LineError::TooLong;
        }
        LineError::Surplus {
            line: self.line() + 1,
        }
    }

    /// Ends the reading: `Ok` exactly where the input ends here.
    pub fn read_end<S: Source>(&mut self, source: &mut S) -> Result<(), LineError>
        ensures { LinesEndRead LIMIT (stream S.left S.faults S.is_strict self.old source.old)
            (stream S.left S.faults S.is_strict self.new source.new) result }
    {
        match self.has_more(source) {
            Ok(false) => Ok(()),
            Ok(true) => Err(self.surplus()),
            Err(_) => Err(LineError::Failed),
        }
    }
}
