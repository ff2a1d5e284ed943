//! The command that the words are.
//!
//! The first word names the command, and each later one gives a number to one of its settings.

ghost use Rattle.std.specs.Prelude.{◌≡◌, ◌^◌, ◌-◌, ◌<◌, ◌≤◌, [], ◌∷◌, length, map, drop, filter_map};
ghost use Rattle.std.specs.Prelude.{IfSome, IfNone, option_map, option_and_then, slice_index_or};
ghost use Rattle.siting_definitions.specs.declared.TheConstants.{GAP_LIMIT, PPM_LIMIT};
ghost use Rattle.siting_definitions.specs.declared.TheConstants.{WORKER_LIMIT};
ghost use Rattle.text_lines.specs.Numbers.{digits_of};
ghost use Rattle.command_line.specs.Command.{has_team, IsGapRule, IsSettings, IsCommand};
ghost use Rattle.command_line.specs.Settings as table;
ghost use Rattle.command_line.specs.Settings.{rule_of, value_in, number_within, gap_rule_of};
ghost use Rattle.command_line.specs.Settings.{otherwise_of};
ghost use Rattle.command_line.specs.Command.{IsWithin};
ghost use Rattle.command_line.specs.Words as commands;
ghost use Rattle.command_line.specs.Words.{command_of};

use crate::argv::Argv;
use crate::command::{Command, Settings};
use crate::settings::{
    BUDGET, DEPTH, GAP, LIMIT, NEW_POOL, Otherwise, POINTS, POOL, PPM, SEED, SLACK, Setting,
    WHOLE_BUDGET, WORKERS, settings_of,
};
use siting_definitions::GapRule;
use text_lines::{digits, says};

/// The command that the words are: none exactly where they are no lawful command.
#[tactic(auto, unfolding(crate::specs::Words::command_of))]
pub fn parse_words(words: &Argv) -> Option<Command>
    ensures value { result ≡ command_of words.now }
    ensures ranges { IfSome result IsCommand }
{
    if words.is_empty() {
        return None;
    }
    let settings = settings_of(words.word(0))?;
    if has_only(words, settings) {
        parse_command(words)
    } else {
        None
    }
}

/// Whether the words are a command that runs a team of two workers or more.
pub fn wants_team(words: &Argv) -> bool
    ensures { result ≡ has_team (command_of words.now) }
{
    has_team(parse_words(words))
}

/// Whether the command runs a team of two workers or more.
pub fn has_team(command: Option<Command>) -> bool
    ensures { result ≡ has_team command }
{
    match command {
        Some(Command::Solve(settings)) => settings.workers >= 2,
        Some(Command::Check { workers } | Command::Resume { workers, .. }) => workers >= 2,
        _ => false,
    }
}

/// The command that the first word names, with its settings.
#[tactic(auto, unfolding(crate::specs::Words::command_with))]
fn parse_command(words: &Argv) -> Option<Command>
    requires { 0 < length words.now }
    ensures value { result ≡ commands.command_with (slice_index_or words.now 0 [])
        (drop 1 words.now) }
    ensures ranges { IfSome result IsCommand }
{
    let name = words.word(0);
    if says(name, b"solve") {
        parse_solve(words)
    } else if says(name, b"check") {
        parse_check(words)
    } else if says(name, b"resume") {
        parse_resume(words)
    } else if says(name, b"polish") {
        Some(Command::Polish)
    } else if says(name, b"near") {
        parse_near(words)
    } else if says(name, b"make") {
        parse_make(words)
    } else if says(name, b"trial") {
        parse_trial(words)
    } else {
        None
    }
}

/// A solve with its settings.
#[tactic(auto, unfolding(crate::specs::Words::solve_of))]
fn parse_solve(words: &Argv) -> Option<Command>
    ensures value { result ≡ commands.solve_of (drop 1 words.now) }
    ensures ranges { IfSome result IsCommand }
{
    let workers = number(words, &WORKERS)?;
    let settings = parse_settings(words, workers as u32)?;
    Some(Command::Solve(settings))
}

/// A check, with its workers.
#[tactic(auto, unfolding(crate::specs::Words::check_of))]
fn parse_check(words: &Argv) -> Option<Command>
    ensures value { result ≡ commands.check_of (drop 1 words.now) }
    ensures ranges { IfSome result IsCommand }
{
    let workers = number(words, &WORKERS)?;
    Some(Command::Check {
        workers: workers as u32,
    })
}

/// A resumption, with its budget, its pool if it is given, and its workers.
#[tactic(auto, unfolding(crate::specs::Words::resume_of))]
fn parse_resume(words: &Argv) -> Option<Command>
    ensures value { result ≡ commands.resume_of (drop 1 words.now) }
    ensures ranges { IfSome result IsCommand }
{
    let budget = number(words, &WHOLE_BUDGET)?;
    let pool = said(words, &NEW_POOL)?;
    let workers = number(words, &WORKERS)?;
    Some(Command::Resume {
        budget: budget as u32,
        pool: pool.map(|pool| pool as u32),
        workers: workers as u32,
    })
}

/// A near set, with its slack, its depth and its limit.
#[tactic(auto, unfolding(crate::specs::Words::near_of))]
fn parse_near(words: &Argv) -> Option<Command>
    ensures value { result ≡ commands.near_of (drop 1 words.now) }
    ensures ranges { IfSome result IsCommand }
{
    let slack = number(words, &SLACK)?;
    let depth = number(words, &DEPTH)?;
    let limit = number(words, &LIMIT)?;
    Some(Command::Near {
        slack: slack as i64,
        depth: depth as u8,
        limit: limit as u32,
    })
}

/// A made instance, with its seed and its points.
#[tactic(auto, unfolding(crate::specs::Words::make_of))]
fn parse_make(words: &Argv) -> Option<Command>
    ensures value { result ≡ commands.make_of (drop 1 words.now) }
    ensures ranges { IfSome result IsCommand }
{
    let seed = number(words, &SEED)?;
    let points = number(words, &POINTS)?;
    Some(Command::Make {
        seed: seed as u32,
        points: points as u32,
    })
}

/// A trial, with its seed, its points and its settings, and one worker.
#[tactic(auto, unfolding(crate::specs::Words::trial_of))]
fn parse_trial(words: &Argv) -> Option<Command>
    ensures value { result ≡ commands.trial_of (drop 1 words.now) }
    ensures ranges { IfSome result IsCommand }
{
    let seed = number(words, &SEED)?;
    let points = number(words, &POINTS)?;
    let settings = parse_settings(words, 1)?;
    Some(Command::Trial {
        seed: seed as u32,
        points: points as u32,
        settings,
    })
}

/// How an instance is solved, by so many workers.
#[tactic(auto, unfolding(crate::specs::Settings::settings_of))]
fn parse_settings(words: &Argv, workers: u32) -> Option<Settings>
    requires { (1 ≤ workers) × (workers ≤ WORKER_LIMIT) }
    ensures value { result ≡ table.settings_of workers (drop 1 words.now) }
    ensures ranges { IfSome result (λ s. IsSettings s × (s.workers ≡ workers)) }
{
    let gap = said(words, &GAP)?;
    let ppm = said(words, &PPM)?;
    let gap = gap_rule_of(gap, ppm)?;
    let budget = number(words, &BUDGET)?;
    let pool = number(words, &POOL)?;
    Some(Settings {
        gap,
        budget: budget as u32,
        pool: pool as u32,
        workers,
    })
}

/// The rule for the gap, of a gap and of a ratio in millionths.
fn gap_rule_of(gap: Option<u64>, ppm: Option<u64>) -> Option<GapRule>
    requires gap { IfSome gap (λ n. n ≤ GAP_LIMIT) }
    requires ppm { IfSome ppm (λ n. n ≤ PPM_LIMIT) }
    ensures value { result ≡ gap_rule_of gap ppm }
    ensures within { IfSome result IsGapRule }
{
    match (gap, ppm) {
        (Some(_), Some(_)) => None,
        (Some(gap), None) => Some(GapRule::Fixed(gap as i64)),
        (None, Some(ppm)) => Some(GapRule::Ppm(ppm as u32)),
        (None, None) => Some(GapRule::Ppm(1000)),
    }
}

/// Whether each word after the first gives a value to one of the settings.
pub(crate) fn has_only(words: &Argv, settings: &[Setting]) -> bool
    requires { 0 < length words.now }
    ensures { result ≡ table.has_only (map rule_of settings.now) (drop 1 words.now) }
{
    for i in 1..words.len() {
        if !names_one(words.word(i), settings) {
            return false;
        }
    }
    true
}

/// Whether a word gives a value to one of the settings.
pub(crate) fn names_one(word: &[u8], settings: &[Setting]) -> bool
    ensures { result ≡ table.names_one (map rule_of settings.now) word.now }
{
    for setting in settings {
        if word.starts_with(setting.name) {
            return true;
        }
    }
    false
}

/// The number that the words after the first say of a setting that has to have one. None where
/// they don't say it lawfully.
fn number(words: &Argv, setting: &Setting) -> Option<u64>
    requires greatest { setting.now.greatest < 2 ^ 64 - 1 }
    requires otherwise { IsWithin setting.now }
    ensures value { result ≡ table.number_of (rule_of setting.now) (drop 1 words.now) }
    ensures within { IfSome result (λ n. (setting.now.least ≤ n) × (n ≤ setting.now.greatest)) }
{
    said(words, setting)?
}

/// What the words after the first say of a setting: its number, if it has one. None where they
/// don't say it lawfully.
fn said(words: &Argv, setting: &Setting) -> Option<Option<u64>>
    requires greatest { setting.now.greatest < 2 ^ 64 - 1 }
    requires otherwise { IsWithin setting.now }
    ensures value { result ≡ table.said (rule_of setting.now) (drop 1 words.now) }
    ensures within { IfSome result (λ number. IfSome number (λ n.
        (setting.now.least ≤ n) × (n ≤ setting.now.greatest))) }
{
    let Some((value, after)) = next_value(words, setting.name, 1) else {
        return otherwise(setting);
    };
    if next_value(words, setting.name, after).is_some() {
        return None;
    }
    let number = number_in(value, setting.least, setting.greatest)?;
    Some(Some(number))
}

/// What a setting is where no word says it: none where a word has to.
fn otherwise(setting: &Setting) -> Option<Option<u64>>
    ensures { result ≡ otherwise_of setting.now.otherwise }
{
    match setting.otherwise {
        Otherwise::Default(number) => Some(Some(number)),
        Otherwise::Unsaid => Some(None),
        Otherwise::Required => None,
    }
}

/// The first value that is given to a name from word `start` on, and the index of the word after
/// it.
pub(crate) fn next_value<'a>(
    words: &'a Argv,
    name: &[u8],
    start: usize,
) -> Option<(&'a [u8], usize)>
    ensures none { IfNone result (filter_map (value_in name.now) (drop start words.now) ≡ []) }
    ensures some { IfSome result (λ f. filter_map (value_in name.now) (drop start words.now)
        ≡ f.0.now ∷ filter_map (value_in name.now) (drop f.1 words.now)) }
    ensures after { IfSome result (λ f. 0 < f.1) }
{
    for i in start..words.len() {
        if let Some(value) = value_in(words.word(i), name) {
            return Some((value, i + 1));
        }
    }
    None
}

/// The value that a word gives to a name.
fn value_in<'a>(word: &'a [u8], name: &[u8]) -> Option<&'a [u8]>
    ensures { option_map (λ value. value.now) result ≡ value_in name.now word.now }
{
    word.strip_prefix(name)
}

/// The number that a value's digits stand for, where it lies from `low` to `high`.
fn number_in(value: &[u8], low: u64, high: u64) -> Option<u64>
    requires { high < 2 ^ 64 - 1 }
    ensures value { result ≡ option_and_then (number_within low high) (digits_of value.now) }
    ensures within { IfSome result (λ n. (low ≤ n) × (n ≤ high)) }
{
    let number = digits(value)?;
    number_within(low, high, number)
}

/// The number, where it lies from `low` to `high`.
fn number_within(low: u64, high: u64, number: u64) -> Option<u64>
    ensures value { result ≡ number_within low high number }
    ensures within { IfSome result (λ n. (low ≤ n) × (n ≤ high)) }
{
    if low <= number && number <= high {
        Some(number)
    } else {
        None
    }
}
