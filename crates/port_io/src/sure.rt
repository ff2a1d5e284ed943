//! Sources and a sink in memory that never fail.

ghost use Rattle.std.specs.Prelude.{◌≡◌, ℕ, ◌≤◌, None, Some, List, [], length};
ghost use Rattle.std.specs.Prelude.{MatchOption, vec_len, vec_capacity, true, false, min, take};
ghost use Rattle.std.specs.Prelude.{drop, IfOk, if◌then◌else◌};
ghost use Rattle.port_io.specs.MemoryPorts.{SureSinkState, sure_taken};
ghost use Rattle.port_io.specs.SinkLaws.{sure-nothing};

use crate::memory::{Held, NoMemory, copy_front};
use crate::ports::{Failed, Sink, Source};
use std::alloc::Global;
use std::marker::Model;

/// A source over bytes in memory. It tells its bytes, never fails, and its count of faults is
/// always 0.
#[derive(Drop)]
pub struct SureSource {
    held: Held,
}

impl Model for SureSource {
    ghost Value = { List ℕ };

    ghost view = { λ s. s.held };
}

impl SureSource {
    /// The source of these bytes.
    pub fn new(bytes: Vec<u8>) -> SureSource
        ensures { result ≡ bytes.items }
    {
        SureSource {
            held: Held::new(bytes),
        }
    }
}

impl Source for SureSource {
    ghost left = { λ s. Some s };

    ghost faults = { λ _. 0 };

    ghost is_strict = { true };

    fn read(&mut self, buf: &mut [u8]) -> Result<usize, Failed> {
        let most = buf.len();
        Ok(self.held.give(buf, most))
    }
}

/// A source over bytes in memory that another owns. It tells its bytes, never fails, and its count
/// of faults is always 0.
#[derive(Drop)]
pub struct SliceSource<'a> {
    bytes: &'a [u8],
    at: usize,
}

impl<'a> Model for SliceSource<'a> {
    ghost use Rattle.std.specs.Prelude.{ℕ, ◌≤◌, List, length, drop};

    ghost Value = { List ℕ };

    ghost view = { λ s. drop s.at s.bytes.now };

    ghost invariant = { λ s. s.at ≤ length s.bytes.now };
}

impl<'a> SliceSource<'a> {
    /// The source of these bytes.
    pub fn new(bytes: &'a [u8]) -> SliceSource<'a>
        ensures { result ≡ bytes.now }
    {
        SliceSource { bytes, at: 0 }
    }

    /// Gives the first bytes into the front of `buf`, and says how many.
    fn give(&mut self, buf: &mut [u8]) -> usize
        ensures count { result ≡ min (length buf.old) (length self.old) }
        ensures front { take result buf.new ≡ take result self.old }
        ensures rest { self.new ≡ drop result self.old }
        ensures bound { result ≤ length buf.new }
    {
        let most = buf.len();
        let count = copy_front(buf, &self.bytes[self.at..], most);
        self.at += count;
        count
    }
}

impl<'a> Source for SliceSource<'a> {
    ghost left = { λ s. Some s };

    ghost faults = { λ _. 0 };

    ghost is_strict = { true };

    fn read(&mut self, buf: &mut [u8]) -> Result<usize, Failed> {
        Ok(self.give(buf))
    }
}

/// A sink in memory with a room. It never fails, and its count of faults is always 0. It keeps and
/// tells the bytes that it took as long as all of them fit its room; the rest are dropped.
#[derive(Drop)]
pub struct SureSink {
    bytes: Vec<u8>,
    room: usize,
    is_over: bool,
}

impl Model for SureSink {
    ghost Value = { SureSinkState };

    ghost view = { λ s. record {
      room = s.room;
      bytes = if s.is_over then None else Some s.bytes.items;
    } };

    ghost invariant = { λ s. (vec_len s.bytes ≤ s.room) × (s.room ≤ vec_capacity s.bytes) };
}

impl SureSink {
    /// An empty sink that tells this many bytes at most.
    pub fn with_room(alloc: Global, room: usize) -> Result<SureSink, NoMemory>
        ensures { IfOk result (λ s. s ≡ record { room = room; bytes = Some [] }) }
    {
        match Vec::with_capacity(alloc, room) {
            Ok(bytes) => Ok(SureSink {
                bytes,
                room,
                is_over: false,
            }),
            Err(_) => Err(NoMemory),
        }
    }

    /// The bytes taken, or `None` where more were taken than the room.
    pub fn bytes(&self) -> Option<&[u8]>
        ensures { MatchOption result (sure_taken self.now ≡ None)
            (λ bytes. sure_taken self.now ≡ Some bytes.now) }
    {
        if self.is_over {
            None
        } else {
            Some(self.bytes.as_slice())
        }
    }
}

impl Sink for SureSink {
    ghost room = { λ s. Some s.room };

    ghost taken = { sure_taken };

    ghost faults = { λ _. 0 };

    ghost is_strict = { true };

    ghost nothing = { sure-nothing };

    fn write(&mut self, piece: &[u8]) -> Result<usize, Failed> {
        if piece.len() > self.room - self.bytes.len() {
            self.is_over = true;
        }
        if !self.is_over {
            self.bytes.extend_from_slice(piece).unwrap();
        }
        Ok(piece.len())
    }
}
