//! What is wrong with words that are no lawful command.

ghost use Rattle.std.specs.Prelude.{◌≡◌, ◌<◌, is_none, is_some, length};
ghost use Rattle.command_line.specs.Words.{command_of};

use crate::argv::Argv;
use crate::settings::{Otherwise, Setting, settings_of};
use crate::words::{names_one, next_value, parse_words};
use text_lines::digits;

/// What is wrong with the words. A number in it is the place of the word.
#[derive(Clone, Copy, Debug, PartialEq, Eq)]
pub enum WordFault {
    /// The first word is no command, or there is none.
    Command,
    /// The word gives no number to a setting of the command.
    Name(usize),
    /// The setting had a value before.
    Twice(usize),
    /// The value isn't one or more digits.
    Digits(usize),
    /// The number isn't in the setting's range.
    Range(usize, Setting),
    /// The setting has to be said.
    Missing(Setting),
    /// A gap and a ratio both stand.
    Both,
}

/// What is wrong with the words: none exactly where they are a lawful command.
pub fn fault_of_words(words: &Argv) -> Option<WordFault>
    ensures { is_none result ≡ is_some (command_of words.now) }
{
    if parse_words(words).is_some() {
        return None;
    }
    if words.is_empty() {
        return Some(WordFault::Command);
    }
    let Some(settings) = settings_of(words.word(0)) else {
        return Some(WordFault::Command);
    };
    for i in 1..words.len() {
        if !names_one(words.word(i), settings) {
            return Some(WordFault::Name(i));
        }
    }
    for setting in settings {
        if let Some(fault) = fault_of_setting(words, setting) {
            return Some(fault);
        }
    }
    Some(WordFault::Both)
}

/// What is wrong with what the words after the first say of a setting, if something is.
fn fault_of_setting(words: &Argv, setting: &Setting) -> Option<WordFault>
    requires { 0 < length words.now }
{
    let Some((value, after)) = next_value(words, setting.name, 1) else {
        return match setting.otherwise {
            Otherwise::Required => Some(WordFault::Missing(*setting)),
            _ => None,
        };
    };
    if let Some((_, again)) = next_value(words, setting.name, after) {
        return Some(WordFault::Twice(again - 1));
    }
    match digits(value) {
        None => Some(WordFault::Digits(after - 1)),
        Some(number) if number < setting.least || setting.greatest < number => {
            Some(WordFault::Range(after - 1, *setting))
        }
        Some(_) => None,
    }
}
