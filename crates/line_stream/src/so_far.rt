//! How much of an input was read.

ghost use Rattle.std.specs.Prelude.{◌≡◌, ◌+◌, ◌-◌, ◌≤◌, if◌then◌else◌};

use std::marker::Model;

/// How many bytes and how many whole lines were read, of an input of which `LIMIT` bytes may be.
#[derive(Drop)]
pub(crate) struct ReadSoFar<const LIMIT: u32> {
    read: u64,
    line: u64,
}

impl<const LIMIT: u32> Model for ReadSoFar<LIMIT> {
    ghost use Rattle.std.specs.Prelude.{◌≤◌};
    ghost use Rattle.line_stream.specs.ReadSoFar.{ReadSoFar as SoFar};

    ghost Value = { SoFar };

    ghost view = { λ r. record { read = r.read; line = r.line } };

    ghost invariant = { λ r. (r.line ≤ r.read) × (r.read ≤ LIMIT) };
}

impl<const LIMIT: u32> ReadSoFar<LIMIT> {
    /// The beginning.
    pub(crate) fn new() -> ReadSoFar<LIMIT>
        ensures { result ≡ record { read = 0; line = 0 } }
    {
        ReadSoFar { read: 0, line: 0 }
    }

    /// How many whole lines were read.
    pub(crate) fn line(&self) -> u64
        ensures value { result ≡ self.now.line }
        ensures many { result ≤ LIMIT }
    {
        self.line
    }

    /// How many more bytes may be read.
    pub(crate) fn left(&self) -> usize
        ensures value { result ≡ LIMIT - self.now.read }
        ensures within { self.now.read ≤ LIMIT }
    {
        (u64::from(LIMIT) - self.read) as usize
    }

    /// Goes on by so many bytes, and a line feed after them, where it came.
    pub(crate) fn advance(&mut self, count: usize, found: bool)
        requires { count + (if found then 1 else 0) ≤ LIMIT - self.old.read }
        ensures { self.new ≡ record {
          read = self.old.read + (count + (if found then 1 else 0));
          line = self.old.line + (if found then 1 else 0);
        } }
    {
        self.read += count as u64 + u64::from(found);
        self.line += u64::from(found);
    }
}
