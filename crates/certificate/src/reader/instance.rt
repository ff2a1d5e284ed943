//! Reading the lines of the instance.

ghost use Rattle.std.specs.Prelude.{◌≡◌, ◌<◌, ◌≤◌, Some, [], Err, IsOk, OnErr, option_map};
ghost use Rattle.line_stream.specs.Stream.{stream};
ghost use Rattle.certificate.specs.HeadReading.{answer_limit, instance_part};
ghost use Rattle.certificate.specs.PartReading.{part_with, RestRead, PartLineRead, PartRead};
ghost use Rattle.certificate.specs.AnswerReading.{ReadInMemory};

use crate::reader::canonical::canonical_instance;
use crate::reader::{AnswerError, AnswerLines};
use port_io::Source;
use site_model::Instance;
use std::alloc::Global;
use std::marker::Model;
use text_lines::says;

/// How many bytes are kept at most.
const ROOM: usize = 400_000;

/// The bytes of some lines, kept where there are 400,000 at most.
#[derive(Drop)]
pub(super) struct Part {
    bytes: Vec<u8>,
    is_over: bool,
}

impl Model for Part {
    ghost use Rattle.std.specs.Prelude.{Option, Some, None, List, ℕ, ◌≤◌, vec_len, if◌then◌else◌};

    ghost Value = { Option (List ℕ) };

    ghost view = { λ p. if p.is_over then None else Some p.bytes.items };

    ghost invariant = { λ p. vec_len p.bytes ≤ 400000 };
}

impl Part {
    /// No bytes.
    pub(super) fn new(alloc: Global) -> Part
        ensures { result ≡ Some [] }
    {
        Part {
            bytes: Vec::new(alloc),
            is_over: false,
        }
    }

    /// The bytes, or none where there are too many to be kept.
    pub(super) fn bytes(&self) -> Option<&[u8]>
        ensures { option_map (λ bytes. bytes.now) result ≡ self.now }
    {
        if self.is_over {
            None
        } else {
            Some(self.bytes.as_slice())
        }
    }

    /// Adds bytes.
    pub(super) fn add(&mut self, bytes: &[u8]) -> Result<(), AnswerError>
        ensures kept { IsOk result → self.new ≡ part_with self.old bytes.now }
        ensures memory { OnErr result (result ≡ Err AnswerError.NoMemory) }
    {
        if bytes.len() > ROOM - self.bytes.len() {
            self.is_over = true;
        }
        if self.is_over {
            return Ok(());
        }
        match self.bytes.extend_from_slice(bytes) {
            Ok(()) => Ok(()),
            Err(_) => Err(AnswerError::NoMemory),
        }
    }
}

/// Reads the rest of a line into the part, with its line feed.
fn read_rest<S: Source>(
    lines: &mut AnswerLines,
    source: &mut S,
    part: &mut Part,
) -> Result<(), AnswerError>
    ensures reads { RestRead (stream S.left S.faults S.is_strict lines.old source.old)
        (stream S.left S.faults S.is_strict lines.new source.new) part.old part.new result }
    ensures more { IsOk result
        → (lines.old.read < lines.new.read) × (lines.new.read ≤ answer_limit) }
{
    while !lines.read_piece(source)? {
        part.add(lines.text())?;
    }
    part.add(lines.text())?;
    part.add(b"\n")?;
    Ok(())
}

/// Reads a line into the part, with its line feed, and says whether it is the last one.
fn read_part_line<S: Source>(
    lines: &mut AnswerLines,
    source: &mut S,
    part: &mut Part,
) -> Result<bool, AnswerError>
    ensures reads { PartLineRead (stream S.left S.faults S.is_strict lines.old source.old)
        (stream S.left S.faults S.is_strict lines.new source.new) part.old part.new result }
    ensures more { IsOk result
        → (lines.old.read < lines.new.read) × (lines.new.read ≤ answer_limit) }
{
    let whole = lines.read_piece(source)?;
    part.add(lines.text())?;
    if whole {
        part.add(b"\n")?;
        return Ok(says(lines.text(), b"end"));
    }
    read_rest(lines, source, part)?;
    Ok(false)
}

/// Reads the lines of the instance, to the first that is `end`.
fn read_part<S: Source>(
    alloc: Global,
    lines: &mut AnswerLines,
    source: &mut S,
) -> Result<Part, AnswerError>
    ensures { PartRead (stream S.left S.faults S.is_strict lines.old source.old)
        (stream S.left S.faults S.is_strict lines.new source.new) result }
{
    let mut part = Part::new(alloc);
    while !read_part_line(lines, source, &mut part)? {}
    Ok(part)
}

/// Reads the instance, whose text has to be the canonical one, of this version.
pub(super) fn read_instance_lines<S: Source>(
    alloc: Global,
    lines: &mut AnswerLines,
    source: &mut S,
    second: bool,
) -> Result<Instance, AnswerError>
    ensures { ReadInMemory (instance_part second)
        (stream S.left S.faults S.is_strict lines.old source.old)
        (stream S.left S.faults S.is_strict lines.new source.new) result }
{
    let part = read_part(alloc, lines, source)?;
    canonical_instance(alloc, second, &part)
}
