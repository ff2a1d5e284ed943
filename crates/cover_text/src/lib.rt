//! The text of a cover, `cover 1`: reading it, with its first fault.
#![tactic(auto)]

mod faults;
mod laws;
mod numbers;
mod phase;
mod read;
mod reading;
mod rows;
#[cfg(test)]
mod tests;

pub use faults::{
    BAD_HEADER, BAD_LINE, BAD_NUMBER, CoverError, EMPTY_TILE, NO_END, OUT_OF_RANGE,
    TOO_FEW_VERTICES, TOO_MANY_TRIANGLES, TOO_MANY_VERTICES, TextFault,
};
pub use laws::{faults_have_their_numbers, limits_have_their_numbers};
pub use read::read_cover;

/// The greatest size of a coordinate, in fine units: 2^31.
pub const FINE_LIMIT: u64 = 2147483648;

/// How many times a length is halved at most.
pub const SHIFT_LIMIT: u64 = 20;

/// The greatest owner that a triangle may name.
pub const OWNER_LIMIT: u64 = 1000000;

/// How many vertices the rings have at most, taken together: 2^20.
pub const RING_LIMIT: u64 = 1048576;

/// How many triangles there are at most: 2^21.
pub const TRIANGLE_LIMIT: usize = 2097152;
