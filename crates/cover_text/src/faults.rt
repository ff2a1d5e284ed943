//! The faults of a text of a cover.

use instance_text::InstanceFault;
use std::alloc::AllocError;
use thiserror::Error;

/// The first fault of the lines of a cover, up to its end.
#[derive(Clone, Copy, Debug, PartialEq, Eq)]
pub struct TextFault {
    /// Which fault: one of the constants of this crate, 1 to 9.
    pub number: u8,
    /// The line, from 1; the number of lines plus one where only the end of the text shows the
    /// fault.
    pub line: u64,
}

/// Why no cover was read.
#[derive(Debug, Drop, Error)]
pub enum CoverError {
    /// The lines of the cover have a fault; this is the first.
    #[error("bad cover {} line {}", .0.number, .0.line)]
    Fault(TextFault),
    /// The lines after them are no instance text; this is its first fault, by its line in the whole
    /// text.
    #[error("bad instance {} line {}", .0.number, .0.line)]
    Instance(InstanceFault),
    /// Memory ran out.
    #[error("out of memory")]
    NoMemory,
}

/// Why a line isn't taken.
#[derive(Clone, Copy, Debug, PartialEq, Eq)]
pub(crate) enum LineError {
    /// This is its first fault.
    Fault(u8),
    /// Memory ran out.
    NoMemory,
}

impl From<u8> for LineError {
    ghost use Rattle.std.specs.Prelude.{◌≡◌};
    ghost use Rattle.cover_text.specs.declared.faults.LineError.TheVariants.{Fault};

    ghost from_gives = { λ number error. error ≡ Fault number };

    fn from(number: u8) -> LineError {
        LineError::Fault(number)
    }
}

impl From<AllocError> for LineError {
    ghost use Rattle.std.specs.Prelude.{◌≡◌};
    ghost use Rattle.cover_text.specs.declared.faults.LineError.TheVariants.{NoMemory};

    ghost from_gives = { λ _ error. error ≡ NoMemory };

    fn from(_: AllocError) -> LineError {
        LineError::NoMemory
    }
}

/// The first line that counts isn't `cover 1`, or there is none.
pub const BAD_HEADER: u8 = 1;
/// A line has not the word that stands in its place, or not the number of fields that its word asks
/// for.
pub const BAD_LINE: u8 = 2;
/// A field that has to be a number isn't one.
pub const BAD_NUMBER: u8 = 3;
/// A number is out of its range.
pub const OUT_OF_RANGE: u8 = 4;
/// The right side of the tile lies to the left of its left side, or the upper below the lower.
pub const EMPTY_TILE: u8 = 5;
/// A ring has fewer than 3 vertices.
pub const TOO_FEW_VERTICES: u8 = 6;
/// The rings have more than 1,048,576 vertices.
pub const TOO_MANY_VERTICES: u8 = 7;
/// There are more than 2,097,152 triangles.
pub const TOO_MANY_TRIANGLES: u8 = 8;
/// There is no end.
pub const NO_END: u8 = 9;
