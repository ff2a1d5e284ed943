//! A source and a sink in memory, which fail at the calls that they are told to.

ghost use Rattle.std.specs.Prelude.{◌≡◌, ℕ, ◌-◌, ◌<◌, ◌≤◌, ◌||◌, None, Some, List, []};
ghost use Rattle.std.specs.Prelude.{length, take, drop, min, nat_le, vec_len, vec_capacity, true};
ghost use Rattle.std.specs.Prelude.{is_err, IsTrue, IfOk, OnOk};
ghost use Rattle.port_io.specs.Faults.{HasCause, CountsFaults, next_count};
ghost use Rattle.port_io.specs.Bytes.{Reads, Writes};
ghost use Rattle.port_io.specs.MemoryPorts.{MemSourceState, MemSinkState, is_listed};
ghost use Rattle.port_io.specs.SinkLaws.{Took-nothing};

use crate::ports::{Failed, Sink, Source};
use std::alloc::Global;
use std::marker::Model;

/// Memory ran out for the room of a sink.
#[derive(Clone, Copy, Debug, PartialEq, Eq)]
pub struct NoMemory;

/// Copies bytes from the front of `from` to the front of `to`, `most` at most, and says how many.
pub(crate) fn copy_front(to: &mut [u8], from: &[u8], most: usize) -> usize
    ensures count { result ≡ min (min most (length to.old)) (length from.now) }
    ensures front { take result to.new ≡ take result from.now }
    ensures rest { drop result to.new ≡ drop result to.old }
{
    let count = most.min(to.len()).min(from.len());
    to[..count].copy_from_slice(&from[..count]);
    count
}

/// Bytes that are given from the front.
#[derive(Drop)]
pub(crate) struct Held {
    bytes: Vec<u8>,
    at: usize,
}

impl Model for Held {
    ghost Value = { List ℕ };

    ghost view = { λ h. drop h.at h.bytes.items };

    ghost invariant = { λ h. h.at ≤ length h.bytes.items };
}

impl Held {
    pub(crate) fn new(bytes: Vec<u8>) -> Held
        ensures { result ≡ bytes.items }
    {
        Held { bytes, at: 0 }
    }

    /// Gives the first bytes into the front of `buf`, `most` at most, and says how many.
    pub(crate) fn give(&mut self, buf: &mut [u8], most: usize) -> usize
        ensures count { result ≡ min (min most (length buf.old)) (length self.old) }
        ensures front { take result buf.new ≡ take result self.old }
        ensures rest { self.new ≡ drop result self.old }
    {
        let count = copy_front(buf, &self.bytes[self.at..], most);
        self.at += count;
        count
    }
}

/// Which calls fail, and how many calls and faults there were.
#[derive(Drop)]
struct Schedule {
    fails: Vec<u64>,
    calls: u64,
    faults: u64,
}

impl Schedule {
    fn new(fails: Vec<u64>) -> Schedule
        ensures fails { result.fails.items ≡ fails.items }
        ensures calls { result.calls ≡ 0 }
        ensures faults { result.faults ≡ 0 }
    {
        Schedule {
            fails,
            calls: 0,
            faults: 0,
        }
    }

    /// Counts a call, and says whether it is to fail.
    fn call(&mut self) -> bool
        ensures listed { result ≡ is_listed self.old.fails.items self.new.calls }
        ensures calls { self.new.calls ≡ next_count self.old.calls }
        ensures fails { self.new.fails.items ≡ self.old.fails.items }
        ensures faults { self.new.faults ≡ self.old.faults }
    {
        self.calls = self.calls.saturating_add(1);
        self.fails.contains(&self.calls)
    }

    /// Counts a fault.
    fn fault(&mut self) -> Failed
        ensures faults { self.new.faults ≡ next_count self.old.faults }
        ensures calls { self.new.calls ≡ self.old.calls }
        ensures fails { self.new.fails.items ≡ self.old.fails.items }
    {
        self.faults = self.faults.saturating_add(1);
        Failed
    }
}

/// A source over bytes in memory. It gives at most `chunk` bytes a call, and fails exactly at
/// the calls whose numbers, from 1, are listed. It tells its bytes.
#[derive(Drop)]
pub struct MemSource {
    held: Held,
    chunk: usize,
    schedule: Schedule,
}

impl Model for MemSource {
    ghost Value = { MemSourceState };

    ghost view = { λ s. record {
      left = s.held;
      chunk = s.chunk;
      fails = s.schedule.fails.items;
      calls = s.schedule.calls;
      faults = s.schedule.faults;
    } };

    ghost invariant = { λ s. 0 < s.chunk };
}

impl MemSource {
    /// The source of these bytes, which gives `chunk` of them a call at most and fails at the
    /// calls whose numbers, from 1, stand in `fails`.
    pub fn new(bytes: Vec<u8>, chunk: usize, fails: Vec<u64>) -> MemSource
        requires { 0 < chunk }
        ensures { result ≡ record {
          left = bytes.items;
          chunk = chunk;
          fails = fails.items;
          calls = 0;
          faults = 0;
        } }
    {
        MemSource {
            held: Held::new(bytes),
            chunk,
            schedule: Schedule::new(fails),
        }
    }
}

impl Source for MemSource {
    ghost left = { λ s. Some s.left };

    ghost faults = { λ s. s.faults };

    ghost is_strict = { true };

    fn read(&mut self, buf: &mut [u8]) -> Result<usize, Failed>
        requires { 0 < length buf.old }
        ensures bound { IfOk result (λ n. n ≤ length buf.new) }
        ensures bytes { Reads (Some self.old.left) (Some self.new.left) result buf.new }
        ensures cause { HasCause self.old.faults self.new.faults result }
        ensures strict { IsTrue true → OnOk result (self.new.faults ≡ self.old.faults) }

        // It fails exactly at the listed calls, and gives all that fits the chunk and `buf`.
        ensures listed { is_err result ≡ is_listed self.old.fails self.new.calls }
        ensures count { IfOk result (λ n.
            n ≡ min (min self.old.chunk (length buf.new)) (length self.old.left)) }

        // Each call and each fault is counted, and the rest stays.
        ensures calls { self.new.calls ≡ next_count self.old.calls }
        ensures faults { CountsFaults self.old.faults self.new.faults result }
        ensures chunk { self.new.chunk ≡ self.old.chunk }
        ensures fails { self.new.fails ≡ self.old.fails }
    {
        if self.schedule.call() {
            return Err(self.schedule.fault());
        }
        Ok(self.held.give(buf, self.chunk))
    }
}

/// A sink in memory. It takes at most `chunk` bytes a call, and fails exactly at the calls whose
/// numbers, from 1, are listed, and where its room is full. It tells its bytes.
#[derive(Drop)]
pub struct MemSink {
    bytes: Vec<u8>,
    room: usize,
    chunk: usize,
    schedule: Schedule,
}

impl Model for MemSink {
    ghost Value = { MemSinkState };

    ghost view = { λ s. record {
      bytes = s.bytes.items;
      room = s.room;
      chunk = s.chunk;
      fails = s.schedule.fails.items;
      calls = s.schedule.calls;
      faults = s.schedule.faults;
    } };

    ghost invariant = { λ s.
        (0 < s.chunk) × (vec_len s.bytes ≤ s.room) × (s.room ≤ vec_capacity s.bytes) };
}

impl MemSink {
    /// An empty sink with room for this many bytes, which takes `chunk` of them a call at most
    /// and fails at the calls whose numbers, from 1, stand in `fails`.
    pub fn with_room(
        alloc: Global,
        room: usize,
        chunk: usize,
        fails: Vec<u64>,
    ) -> Result<MemSink, NoMemory>
        requires { 0 < chunk }
        ensures { IfOk result (λ s. s ≡ record {
          bytes = [];
          room = room;
          chunk = chunk;
          fails = fails.items;
          calls = 0;
          faults = 0;
        }) }
    {
        match Vec::with_capacity(alloc, room) {
            Ok(bytes) => Ok(MemSink {
                bytes,
                room,
                chunk,
                schedule: Schedule::new(fails),
            }),
            Err(_) => Err(NoMemory),
        }
    }

    /// The bytes that the sink took, in order.
    pub fn bytes(&self) -> &[u8]
        ensures { result.now ≡ self.now.bytes }
    {
        self.bytes.as_slice()
    }
}

impl Sink for MemSink {
    ghost room = { λ _. None };

    ghost taken = { λ s. Some s.bytes };

    ghost faults = { λ s. s.faults };

    ghost is_strict = { true };

    ghost nothing = { λ s. Took-nothing s.bytes };

    fn write(&mut self, piece: &[u8]) -> Result<usize, Failed>
        requires { 0 < length piece.now }
        ensures bound { IfOk result (λ n. (0 < n) × (n ≤ length piece.now)) }
        ensures bytes { Writes None (Some self.old.bytes) (Some self.new.bytes) result piece.now }
        ensures cause { HasCause self.old.faults self.new.faults result }
        ensures strict { IsTrue true → OnOk result (self.new.faults ≡ self.old.faults) }

        // It fails exactly at the listed calls and where its room is full, and takes all that
        // fits the chunk and the room.
        ensures listed { is_err result ≡ (is_listed self.old.fails self.new.calls
            || nat_le self.old.room (length self.old.bytes)) }
        ensures count { IfOk result (λ n.
            n ≡ min (min self.old.chunk (length piece.now))
            (self.old.room - length self.old.bytes)) }

        // Each call and each fault is counted, and the rest stays.
        ensures calls { self.new.calls ≡ next_count self.old.calls }
        ensures faults { CountsFaults self.old.faults self.new.faults result }
        ensures room { self.new.room ≡ self.old.room }
        ensures chunk { self.new.chunk ≡ self.old.chunk }
        ensures fails { self.new.fails ≡ self.old.fails }
    {
        let free = self.room - self.bytes.len();
        if self.schedule.call() || free == 0 {
            return Err(self.schedule.fault());
        }
        let count = self.chunk.min(piece.len()).min(free);
        self.bytes.extend_from_slice(&piece[..count]).unwrap();
        Ok(count)
    }
}
