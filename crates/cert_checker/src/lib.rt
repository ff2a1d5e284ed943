//! The checker: whether a text is that of a valid answer, and which fault it has first where it
//! isn't.
#![tactic(auto)]

mod checking;
mod end;
mod faults;
mod head;
mod laws;
mod mark;
#[cfg(test)]
mod tests;
mod walk;

pub use answer_model::Tally;
pub use checking::{Accepted, accepted_of, check};
pub use end::{end_fault, last_fault};
pub use faults::{
    BOUND_DIFFERS, COST_DIFFERS, CheckError, CheckFault, Differ, FORM, INSTANCE, LEAST_DIFFERS,
    NOT_SHUT, SITE_OUTSIDE, SITE_WORSE, SPLIT_UNCALLED, TREE_LONG, TREE_SHORT, WRONG_COUNT,
    WRONG_MARK, WRONG_WORD,
};
pub use head::{head_fault, opening_or_fault};
pub use laws::{
    a_check_is_cut_in_two, a_check_reads_one_piece_past_its_limit, accepted_exactly_where_valid,
    cut_answers_are_refused, ends_without_a_fault_fit, faults_have_their_numbers,
    heads_without_a_fault_fit, marks_without_a_fault_fit,
};
pub use mark::mark_fault;
pub use walk::Walk;
