//! The bytes that were read ahead.

ghost use Rattle.std.specs.Prelude.{◌≡◌, ◌<◌, ◌≤◌, ◌+◌, ◌==◌, ℕ, true, false, List, [], ◌∷◌};
ghost use Rattle.std.specs.Prelude.{◌++◌, length, take, drop, min, IfOk, IfSome, OnOk, OnErr};
ghost use Rattle.std.specs.Prelude.{IsTrue, if◌then◌else◌, nat_lt};
ghost use Rattle.std.specs.List.{list_all, prefix_len};
ghost use Rattle.std.specs.Io.KnownBytes.{Consumes, Keeps};
ghost use Rattle.port_io.specs.Bytes.{piece_size};
ghost use Rattle.port_io.specs.Faults.{HasCause};
ghost use Rattle.line_stream.specs.Feeds.{is_no_feed};

use port_io::{Buffer, Failed, Source};
use std::marker::Model;

/// The bytes before the first line feed: how many there are.
fn before_feed(bytes: &[u8]) -> usize
    ensures { result ≡ prefix_len is_no_feed bytes.now }
{
    for (i, byte) in bytes.iter().enumerate() {
        if *byte == b'\n' {
            return i;
        }
    }
    bytes.len()
}

/// How many bytes come before the first line feed, of which `most` at most are looked at; and
/// whether it comes then.
fn front_of_line(bytes: &[u8], most: usize) -> (usize, bool)
    ensures line { list_all is_no_feed (take result.0 bytes.now) ≡ true }
    ensures feed { result.1 ≡ true
        → drop result.0 bytes.now ≡ 10 ∷ drop (result.0 + 1) bytes.now }
    ensures within { result.0 + (if result.1 then 1 else 0) ≤ min most (length bytes.now) }
    ensures all { result.1 ≡ false → result.0 ≡ min most (length bytes.now) }
{
    let front = &bytes[..most.min(bytes.len())];
    let count = before_feed(front);
    (count, count < front.len())
}

/// How many bytes a line feed takes, where it came.
fn feed_length(found: bool) -> usize
    ensures { result ≡ (if found then 1 else 0) }
{
    usize::from(found)
}

/// Bytes that were read of a source and are still to be taken.
#[derive(Drop)]
pub(crate) struct Ahead {
    buffer: Buffer,
    at: usize,
}

impl Model for Ahead {
    ghost Value = { List ℕ };

    ghost view = { λ a. drop a.at a.buffer };

    ghost invariant = { λ a. a.at ≤ length a.buffer };
}

impl Ahead {
    /// Nothing read ahead yet.
    pub(crate) fn new() -> Ahead
        ensures { result ≡ [] }
    {
        Ahead {
            buffer: Buffer::new(),
            at: 0,
        }
    }

    /// Whether there are none.
    pub(crate) fn is_empty(&self) -> bool
        ensures { result ≡ (length self.now == 0) }
    {
        self.at == self.buffer.len()
    }

    /// Reads some bytes in place of those that it has, and says whether there were any.
    pub(crate) fn fill<S: Source>(&mut self, source: &mut S) -> Result<bool, Failed>
        ensures bytes { OnOk result (Consumes (S.left source.old) (S.left source.new) self.new) }
        ensures some { IfOk result (λ some. some ≡ nat_lt 0 (length self.new)) }
        ensures end { IfOk result (λ some. some ≡ false → IfSome (S.left source.old)
            (λ left. left ≡ [])) }
        ensures few { length self.new ≤ piece_size }
        ensures err { OnErr result (Keeps (S.left source.old) (S.left source.new)) }
        ensures none { OnErr result (self.new ≡ []) }
        ensures cause { HasCause (S.faults source.old) (S.faults source.new) result }
        ensures strict { IsTrue S.is_strict
            → OnOk result (S.faults source.new ≡ S.faults source.old) }
    {
        self.at = 0;
        self.buffer.fill(source)?;
        Ok(self.buffer.len() > 0)
    }

    /// Gives the bytes before the first line feed to `kept`, `most` at most and as many as there
    /// is space for; and the line feed after them, where it comes within those, to none. Says how
    /// many bytes it gave, and whether the line feed came.
    pub(crate) fn give(&mut self, most: usize, kept: &mut Buffer) -> (usize, bool)
        ensures kept { kept.new ≡ kept.old ++ take result.0 self.old }
        ensures line { list_all is_no_feed (take result.0 self.old) ≡ true }
        ensures rest { drop result.0 self.old
            ≡ (if result.1 then 10 ∷ self.new else self.new) }
        ensures most { result.0 + (if result.1 then 1 else 0) ≤ most }
        ensures within { result.0 ≤ length self.old }
        ensures some { result.1 ≡ false → 0 < length self.old → 0 < most
            → length kept.old < piece_size → 0 < result.0 }
        ensures full { length kept.new ≤ piece_size }
    {
        let front = &self.buffer.as_slice()[self.at..];
        let (count, found) = front_of_line(front, most.min(kept.space()));
        kept.keep(&front[..count]);
        self.at += count + feed_length(found);
        (count, found)
    }
}
