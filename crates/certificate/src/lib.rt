//! The text of an answer: writing it to a sink, and reading it from a source in any pieces.
#![tactic(auto)]

mod laws;
mod reader;
#[cfg(test)]
mod tests;
mod write;

pub use answer_model::{Head, Word};
pub use laws::{no_text_is_of_two_answers, texts_read_back, valid_texts_are_short};
pub use line_stream::inputs_are_their_lines;
pub use reader::{AnswerError, AnswerReader, Item};
pub use write::{word_bytes, write_answer, write_best, write_bound};
