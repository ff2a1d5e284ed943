//! The faults of an instance text.

use std::alloc::AllocError;
use thiserror::Error;

/// The first fault of an instance text.
#[derive(Clone, Copy, Debug, PartialEq, Eq)]
pub struct InstanceFault {
    /// Which fault: one of the constants of this crate, 1 to 17.
    pub number: u8,
    /// The line, from 1; the number of lines plus one where only the end of the text shows the
    /// fault.
    pub line: u64,
}

/// Why no instance was read.
#[derive(Debug, Drop, Error)]
pub enum InstanceError {
    /// The bytes are no instance text; this is its first fault.
    #[error("bad instance {} line {}", .0.number, .0.line)]
    Fault(InstanceFault),
    /// Memory ran out.
    #[error("out of memory")]
    NoMemory,
}

/// Why a line isn't taken.
#[derive(Clone, Copy, Debug, PartialEq, Eq)]
pub(crate) enum LineError {
    /// This is its first fault.
    Fault(u8),
    /// Memory ran out.
    NoMemory,
}

impl From<u8> for LineError {
    ghost use Rattle.std.specs.Prelude.{◌≡◌};
    ghost use Rattle.instance_text.specs.declared.faults.LineError.TheVariants.{Fault};

    ghost from_gives = { λ number error. error ≡ Fault number };

    fn from(number: u8) -> LineError {
        LineError::Fault(number)
    }
}

impl From<AllocError> for LineError {
    ghost use Rattle.std.specs.Prelude.{◌≡◌};
    ghost use Rattle.instance_text.specs.declared.faults.LineError.TheVariants.{NoMemory};

    ghost from_gives = { λ _ error. error ≡ NoMemory };

    fn from(_: AllocError) -> LineError {
        LineError::NoMemory
    }
}

/// The first line that counts isn't `siting 1` or `siting 2`, or there is none.
pub const BAD_HEADER: u8 = 1;
/// A line has no word of this format before its fields, or not the number of fields that its word
/// asks for.
pub const BAD_LINE: u8 = 2;
/// A field that has to be a number isn't one.
pub const BAD_NUMBER: u8 = 3;
/// A number is out of its range.
pub const OUT_OF_RANGE: u8 = 4;
/// A point has the weight 0.
pub const ZERO_WEIGHT: u8 = 5;
/// There are more than 4,096 points.
pub const TOO_MANY_POINTS: u8 = 6;
/// The sizes of the weights sum to more than 16,000,000.
pub const WEIGHT_SUM: u8 = 7;
/// A polygon has fewer than 3 vertices.
pub const TOO_FEW_VERTICES: u8 = 8;
/// A polygon has more than 64 vertices.
pub const TOO_MANY_VERTICES: u8 = 9;
/// A vertex of a polygon doesn't lie strictly to the inner side of each edge that it is no end of.
pub const NOT_CONVEX: u8 = 10;
/// There are more than 64 permitted polygons, or more than 64 forbidden ones.
pub const TOO_MANY_POLYGONS: u8 = 11;
/// The end comes before a kind.
pub const NO_KIND: u8 = 12;
/// There are two kinds.
pub const TWO_KINDS: u8 = 13;
/// The end comes before a point.
pub const NO_POINT: u8 = 14;
/// The end comes before a permitted polygon.
pub const NO_PERMIT: u8 = 15;
/// There is no end.
pub const NO_END: u8 = 16;
/// A line that counts comes after the end.
pub const AFTER_END: u8 = 17;
