//! Lines of bytes, the fields of a line, and the numbers and words that fields are.
//!
//! The readers go over a slice and answer a part of it with what is left; they copy nothing. Each
//! answers exactly what a definition of `specs/` says of the bytes.
#![tactic(auto)]

mod fields;
mod lines;
mod numbers;

pub use fields::{count_fields, is_passed_over, next_field, says};
pub use lines::next_line;
pub use numbers::{NumberField, digits, number, number_within};

#[cfg(test)]
mod tests;
