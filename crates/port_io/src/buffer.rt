//! A buffer of fixed size.

ghost use Rattle.std.specs.Prelude.{◌≡◌, ℕ, ◌-◌, ◌+◌, ◌≤◌, ◌↔◌, IsTrue, List, [], ◌++◌, length};
ghost use Rattle.std.specs.Prelude.{take, min, OnOk, OnErr, IfSome};
ghost use Rattle.std.specs.Io.KnownBytes.{Consumes, Keeps};
ghost use Rattle.port_io.specs.Faults.{HasCause};

use crate::memory::copy_front;
use crate::ports::{Failed, Source};
use std::marker::Model;

/// How many bytes a buffer holds at most.
pub const BUFFER_SIZE: usize = 4096;

/// A buffer of 4,096 bytes. It takes no memory.
#[derive(Drop)]
pub struct Buffer {
    bytes: [u8; BUFFER_SIZE],
    len: usize,
}

impl Model for Buffer {
    ghost Value = { List ℕ };

    ghost view = { λ b. take b.len b.bytes };

    ghost invariant = { λ b. b.len ≤ 4096 };
}

impl Buffer {
    /// A buffer that holds nothing.
    pub fn new() -> Buffer
        ensures { result ≡ [] }
    {
        Buffer {
            bytes: [0; BUFFER_SIZE],
            len: 0,
        }
    }

    /// The bytes that it holds, in order.
    pub fn as_slice(&self) -> &[u8]
        ensures { result.now ≡ self.now }
    {
        &self.bytes[..self.len]
    }

    /// How many bytes it holds.
    pub fn len(&self) -> usize
        ensures value { result ≡ length self.now }
        ensures most { length self.now ≤ BUFFER_SIZE }
    {
        self.len
    }

    /// How many more bytes it can hold.
    pub fn space(&self) -> usize
        ensures { result + length self.now ≡ BUFFER_SIZE }
    {
        BUFFER_SIZE - self.len
    }

    /// Whether it can hold no more.
    pub fn is_full(&self) -> bool
        ensures { IsTrue result ↔ (BUFFER_SIZE ≤ length self.now) }
    {
        self.len == BUFFER_SIZE
    }

    /// Lets go of all that it holds.
    pub fn clear(&mut self)
        ensures { self.new ≡ [] }
    {
        self.len = 0;
    }

    /// Keeps as many of these bytes as there is space for, after those that it holds, and says
    /// how many.
    pub fn keep(&mut self, bytes: &[u8]) -> usize
        ensures count { result ≡ min (BUFFER_SIZE - length self.old) (length bytes.now) }
        ensures kept { self.new ≡ self.old ++ take result bytes.now }
    {
        let count = copy_front(&mut self.bytes[self.len..], bytes, BUFFER_SIZE);
        self.len += count;
        count
    }

    /// Lets go of all that it holds, and reads some bytes of the source: at least one, except at
    /// the end. It fails as the source's `read` does.
    pub fn fill<S: Source>(&mut self, source: &mut S) -> Result<(), Failed>
        ensures bytes { OnOk result (Consumes (S.left source.old) (S.left source.new) self.new) }
        ensures end { OnOk result (IfSome (S.left source.old)
            (λ left. (self.new ≡ []) ↔ (left ≡ []))) }
        ensures few { length self.new ≤ BUFFER_SIZE }
        ensures err { OnErr result (Keeps (S.left source.old) (S.left source.new)) }
        ensures none { OnErr result (self.new ≡ []) }
        ensures cause { HasCause (S.faults source.old) (S.faults source.new) result }
        ensures strict { IsTrue S.is_strict
            → OnOk result (S.faults source.new ≡ S.faults source.old) }
    {
        self.len = 0;
        let count = source.read(&mut self.bytes)?;
        self.len = count;
        Ok(())
    }
}
