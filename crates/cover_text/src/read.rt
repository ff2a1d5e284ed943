//! Reading the text of a cover.

ghost use Rattle.std.specs.Prelude.{◌≡◌, ◌+◌, ◌^◌, ◌<◌, length};
ghost use Rattle.text_lines.specs.Words.{rows_of};
ghost use Rattle.cover_text.specs.Reading as readings;
ghost use Rattle.cover_text.specs.Reading.{reading};
ghost use Rattle.cover_text.specs.Outcome.{Gives, error_at, error_after, FitsAfter};

use crate::faults::{CoverError, LineError, TextFault};
use crate::reading::Reading;
use cover_check::Cover;
use instance_text::{InstanceError, InstanceFault, read_instance};
use std::alloc::Global;
use text_lines::next_line;

/// Reads the cover that a text says: its lines up to their end, and the instance text after them.
///
/// Where the bytes are no such text it answers the first fault, by its line and, within a line, by
/// the order of its fields; and `NoMemory` where memory ran out.
#[tactic(auto, unfolding(crate::specs::Reading::reading))]
pub fn read_cover(alloc: Global, bytes: &[u8]) -> Result<Cover, CoverError>
    ensures { Gives result (reading bytes.now) }
{
    let mut found = Reading::new(alloc);
    let mut line: u64 = 1;
    let mut rest = bytes;
    while !rest.is_empty() {
        let (text, after) = next_line(rest);
        match found.take_line(alloc, line, text) {
            Ok(()) => {}
            Err(error) => return Err(at_line(line, error)),
        }
        if found.has_ended() {
            return with_instance(alloc, line, found, after);
        }
        line += 1;
        rest = after;
    }
    Err(CoverError::Fault(TextFault {
        number: found.missing(),
        line,
    }))
}

/// The cover of what was found up to a line, and of the instance text after it.
fn with_instance(alloc: Global, line: u64, found: Reading, rest: &[u8]) -> Result<Cover, CoverError>
    requires { line + length rest.now < 2 ^ 63 }
    ensures { Gives result (readings.with_instance line found (rows_of rest.now)) }
{
    match read_instance(alloc, rest) {
        Ok(instance) => Ok(found.finish(instance)),
        Err(error) => Err(after(line, error)),
    }
}

/// The error of the text whose instance text after a line has this error.
fn after(line: u64, error: InstanceError) -> CoverError
    requires { FitsAfter line error }
    ensures { result ≡ error_after line error }
{
    match error {
        InstanceError::Fault(fault) => CoverError::Instance(InstanceFault {
            number: fault.number,
            line: line + fault.line,
        }),
        InstanceError::NoMemory => CoverError::NoMemory,
    }
}

/// The error of the text whose line of this number has this error.
fn at_line(line: u64, error: LineError) -> CoverError
    ensures { result ≡ error_at line error }
{
    match error {
        LineError::Fault(number) => CoverError::Fault(TextFault { number, line }),
        LineError::NoMemory => CoverError::NoMemory,
    }
}
