//! What a cover and an answer say together: a bound for each point that a planner asks for.
#![tactic(auto)]

mod laws;

pub use laws::an_answer_bounds_what_is_wanted;
