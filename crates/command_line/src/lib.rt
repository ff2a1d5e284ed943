//! The words of the command line, and the command that they are.
#![tactic(auto)]

mod argv;
mod command;
mod faults;
mod laws;
mod settings;
#[cfg(test)]
mod tests;
mod words;

pub use argv::{Argv, NoMemory};
pub use command::{Command, Settings};
pub use faults::{WordFault, fault_of_words};
pub use laws::words_in_any_order;
pub use settings::{Otherwise, Setting, settings_of};
pub use siting_definitions::GapRule;
pub use words::{has_team, parse_words, wants_team};
