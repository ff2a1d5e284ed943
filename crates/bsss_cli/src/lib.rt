//! The program: its top call, its commands, and what it writes.
#![tactic(auto)]

#[cfg(test)]
mod changed_answers;
mod commands;
mod gap;
mod output;
mod status;
#[cfg(test)]
mod tests;
mod top_call;

pub use answer_model::a_valid_answer_claims;
pub use command_line::{
    Argv, Command, GapRule, NoMemory, Settings, parse_words, wants_team, words_in_any_order,
};
pub use gap::gap_of;
pub use site_workers::{Gate, Moment, OpenGate};
pub use status::Status;
pub use top_call::{run, run_alone};
