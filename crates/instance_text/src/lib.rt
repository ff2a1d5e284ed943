//! The text of an instance, `siting 1` and `siting 2`: reading it, with its first fault, and
//! writing it.
#![tactic(auto)]

mod faults;
mod laws;
mod numbers;
mod phase;
mod points;
mod polygons;
mod read;
mod reading;
mod write;

pub use faults::{
    AFTER_END, BAD_HEADER, BAD_LINE, BAD_NUMBER, InstanceError, InstanceFault, NO_END, NO_KIND,
    NO_PERMIT, NO_POINT, NOT_CONVEX, OUT_OF_RANGE, TOO_FEW_VERTICES, TOO_MANY_POINTS,
    TOO_MANY_POLYGONS, TOO_MANY_VERTICES, TWO_KINDS, WEIGHT_SUM, ZERO_WEIGHT,
};
pub use laws::{
    canonical_texts_are_short, cut_texts_are_refused, faults_have_their_numbers,
    text_has_its_first_fault, text_keeps_limits, text_reads_back, text_says_its_rows, texts_differ,
};
pub use read::read_instance;
pub use write::write_instance;

#[cfg(test)]
mod tests;
