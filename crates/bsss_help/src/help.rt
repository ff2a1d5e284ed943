//! The help for a run.

ghost use Rattle.std.specs.Prelude.{IfOk};
ghost use Rattle.port_io.specs.Output.{IsOpen};

use crate::faults::{answer_fault, instance_fault};
use crate::nearest::{nearest_command, nearest_setting};
use crate::statuses::{GREATEST_POOL, sentence_of};
use crate::usage::USAGE;
use bsss_cli::{Argv, Status};
use command_line::{Command, Setting, WordFault, fault_of_words, parse_words};
use port_io::{Out, Piece, Sink, WriteFault};
use siting_definitions::POOL_LIMIT;
use text_lines::says;

/// What a word is that gives no value, as a file name is.
const NO_VALUE: &str =
    "isn't NAME=NUMBER, without spaces; an input comes from standard input, as in: < FILE";

/// How many bytes of a word are quoted at most.
const QUOTED: usize = 60;

/// Writes what helps the user of a run with these words that ended with this status, and nothing
/// where the run did what was asked.
pub fn write_help<K: Sink>(words: &Argv, status: Status, sink: &mut K) -> Result<(), WriteFault> {
    let mut out = Out::new(sink);
    put_help(words, status, &mut out)?;
    out.finish()
}

/// Puts the help for a run.
fn put_help<K: Sink>(words: &Argv, status: Status, out: &mut Out<K>) -> Result<(), WriteFault>
    requires { IsOpen out.old }
    ensures { IfOk result (λ _. IsOpen out.new) }
{
    match status {
        Status::Usage => put_usage(words, out),
        Status::BadInstance { number, line } => put_fault(line, instance_fault(number), out),
        Status::Rejected(fault) => put_fault(fault.line, answer_fault(fault.number), out),
        Status::PoolFull if pool_of(words) == Some(POOL_LIMIT) => put_sentence(GREATEST_POOL, out),
        _ => put_sentence(sentence_of(status), out),
    }
}

/// How many squares may be open at a time, if the words say it.
fn pool_of(words: &Argv) -> Option<u32> {
    match parse_words(words) {
        Some(Command::Solve(settings)) => Some(settings.pool),
        Some(Command::Resume { pool, .. }) => pool,
        _ => None,
    }
}

/// Puts the commands, where the words ask for them, or else what is wrong with the words.
fn put_usage<K: Sink>(words: &Argv, out: &mut Out<K>) -> Result<(), WriteFault>
    requires { IsOpen out.old }
    ensures { IfOk result (λ _. IsOpen out.new) }
{
    if asks_for_help(words) {
        return out.put(USAGE.as_bytes());
    }
    put_word_fault(words, out)?;
    out.put(b"bsss: the word `--help` alone lists the commands with their words\n")
}

/// Whether the words ask for the commands: there are none, or the first or the second is `help`,
/// `--help` or `-h`.
fn asks_for_help(words: &Argv) -> bool {
    words.is_empty() || is_help(words.word(0)) || words.len() > 1 && is_help(words.word(1))
}

/// Whether a word asks for help.
fn is_help(word: &[u8]) -> bool {
    says(word, b"help") || says(word, b"--help") || says(word, b"-h")
}

/// Puts what is wrong with words that are no lawful command.
fn put_word_fault<K: Sink>(words: &Argv, out: &mut Out<K>) -> Result<(), WriteFault>
    requires { IsOpen out.old }
    ensures { IfOk result (λ _. IsOpen out.new) }
{
    match fault_of_words(words) {
        None => Ok(()),
        Some(WordFault::Command) => put_no_command(words, out),
        Some(WordFault::Name(i)) => put_no_setting(words, i, out),
        Some(WordFault::Twice(i)) => {
            put_word(words, i, "gives a value to a name that has one", out)
        }
        Some(WordFault::Digits(i)) => {
            put_word(words, i, "needs a whole number, of digits alone", out)
        }
        Some(WordFault::Range(i, setting)) => put_range(words, i, &setting, out),
        Some(WordFault::Missing(setting)) => put_missing(setting.name, out),
        Some(WordFault::Both) => put_sentence("`gap` and `ppm` don't stand together", out),
    }
}

/// Puts that the first word is no command, and which one is near.
fn put_no_command<K: Sink>(words: &Argv, out: &mut Out<K>) -> Result<(), WriteFault>
    requires { IsOpen out.old }
    ensures { IfOk result (λ _. IsOpen out.new) }
{
    if words.is_empty() {
        return Ok(());
    }
    put_quoted(words.word(0), out)?;
    out.put(b"is no command")?;
    put_nearest(nearest_command(words.word(0)), out)
}

/// Puts that a word gives no value to a setting of the command, and which one is near.
fn put_no_setting<K: Sink>(words: &Argv, i: usize, out: &mut Out<K>) -> Result<(), WriteFault>
    requires { IsOpen out.old }
    ensures { IfOk result (λ _. IsOpen out.new) }
{
    if i >= words.len() {
        return Ok(());
    }
    if !words.word(i).contains(&b'=') {
        return put_word(words, i, NO_VALUE, out);
    }
    put_quoted(words.word(i), out)?;
    out.put(b"has a name that this command hasn't")?;
    put_nearest(nearest_setting(words.word(0), words.word(i)), out)
}

/// Ends a line with the name that was meant, if one is near.
fn put_nearest<K: Sink>(name: Option<&[u8]>, out: &mut Out<K>) -> Result<(), WriteFault>
    requires { IsOpen out.old }
    ensures { IfOk result (λ _. IsOpen out.new) }
{
    match name {
        None => out.put(b"\n"),
        Some(name) => out.put_pieces(&[
            Piece::Text(b"; is `"),
            Piece::Text(name),
            Piece::Text(b"` meant?\n"),
        ]),
    }
}

/// Puts a word and what is wrong with it.
fn put_word<'x, K: Sink>(
    words: &'x Argv,
    i: usize,
    what: &'x str,
    out: &mut Out<K>,
) -> Result<(), WriteFault>
    requires { IsOpen out.old }
    ensures { IfOk result (λ _. IsOpen out.new) }
{
    if i >= words.len() {
        return Ok(());
    }
    put_quoted(words.word(i), out)?;
    out.put_pieces(&[Piece::Text(what.as_bytes()), Piece::Text(b"\n")])
}

/// Puts the beginning of a line, which quotes a word.
fn put_quoted<K: Sink>(word: &[u8], out: &mut Out<K>) -> Result<(), WriteFault>
    requires { IsOpen out.old }
    ensures { IfOk result (λ _. IsOpen out.new) }
{
    let shown = printable(word);
    let end: &[u8] = if word.len() <= QUOTED {
        b"` "
    } else {
        b"...` (cut short) "
    };
    out.put_pieces(&[
        Piece::Text(b"bsss: `"),
        Piece::Text(&shown[..word.len().min(QUOTED)]),
        Piece::Text(end),
    ])
}

/// The first bytes of a word, with `?` for each that isn't a printable one of ASCII.
fn printable(word: &[u8]) -> [u8; QUOTED] {
    let mut shown = [b' '; QUOTED];
    for (place, byte) in shown.iter_mut().zip(word) {
        *place = if matches!(*byte, b' '..=b'~') {
            *byte
        } else {
            b'?'
        };
    }
    shown
}

/// Puts a word whose number is out of the range of its setting.
fn put_range<K: Sink>(
    words: &Argv,
    i: usize,
    setting: &Setting,
    out: &mut Out<K>,
) -> Result<(), WriteFault>
    requires { IsOpen out.old }
    ensures { IfOk result (λ _. IsOpen out.new) }
{
    if i >= words.len() {
        return Ok(());
    }
    put_quoted(words.word(i), out)?;
    out.put_pieces(&[
        Piece::Text(b"is out of its range, which is from "),
        Piece::Number(capped(setting.least)),
        Piece::Text(b" to "),
        Piece::Number(capped(setting.greatest)),
        Piece::Text(b"\n"),
    ])
}

/// Puts that a name has to stand.
fn put_missing<K: Sink>(name: &[u8], out: &mut Out<K>) -> Result<(), WriteFault>
    requires { IsOpen out.old }
    ensures { IfOk result (λ _. IsOpen out.new) }
{
    out.put_pieces(&[
        Piece::Text(b"bsss: `"),
        Piece::Text(name),
        Piece::Text(b"NUMBER` is missing\n"),
    ])
}

/// Puts what the fault of a line means.
fn put_fault<K: Sink>(line: u64, what: &str, out: &mut Out<K>) -> Result<(), WriteFault>
    requires { IsOpen out.old }
    ensures { IfOk result (λ _. IsOpen out.new) }
{
    out.put_pieces(&[
        Piece::Text(b"bsss: line "),
        Piece::Number(capped(line)),
        Piece::Text(b": "),
        Piece::Text(what.as_bytes()),
        Piece::Text(b"\n"),
    ])
}

/// Puts a sentence, and nothing where it is empty.
fn put_sentence<K: Sink>(sentence: &str, out: &mut Out<K>) -> Result<(), WriteFault>
    requires { IsOpen out.old }
    ensures { IfOk result (λ _. IsOpen out.new) }
{
    if sentence.is_empty() {
        return Ok(());
    }
    out.put_pieces(&[
        Piece::Text(b"bsss: "),
        Piece::Text(sentence.as_bytes()),
        Piece::Text(b"\n"),
    ])
}

/// The number, or 2^62 where it is greater, as no line and no range is.
fn capped(number: u64) -> i64 {
    if number <= 1 << 62 {
        number as i64
    } else {
        1 << 62
    }
}
