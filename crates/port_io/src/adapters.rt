//! The readers and writers of std as ports.

ghost use Rattle.std.specs.Prelude.{◌≡◌, ◌<◌, ◌≤◌, None, length, true, IfOk, OnOk, IsTrue};
ghost use Rattle.std.specs.Prelude.{refl};
ghost use Rattle.port_io.specs.Faults.{HasCause, CountsFaults};
ghost use Rattle.std.specs.Io.KnownBytes.{WriteAppends};
ghost use Rattle.port_io.specs.Adapters.{writer_of};
ghost use Rattle.port_io.specs.Bytes.{Reads};

use crate::ports::{Failed, Sink, Source};
use std::io::{ErrorKind, Read, Write};

/// A reader of `std` as a source. It tells the bytes that the reader tells, and counts each read
/// that fails, up to 2^64 - 1, and nothing else. A read that a signal interrupted is read again.
#[derive(Drop)]
pub struct StdSource<R> {
    inner: R,
    faults: u64,
}

impl<R: Read> StdSource<R> {
    /// The source over this reader, with no faults counted.
    pub fn new(inner: R) -> StdSource<R>
        ensures left { ⟦<StdSource<R> as Source>⟧.left result ≡ R.remaining inner }
        ensures faults { ⟦<StdSource<R> as Source>⟧.faults result ≡ 0 }
    {
        StdSource { inner, faults: 0 }
    }
}

impl<R: Read> Source for StdSource<R> {
    ghost left = { λ s. R.remaining s.inner };

    ghost faults = { λ s. s.faults };

    ghost is_strict = { true };

    fn read(&mut self, buf: &mut [u8]) -> Result<usize, Failed>
        requires { 0 < length buf.old }
        ensures bound { IfOk result (λ n. n ≤ length buf.new) }
        ensures bytes { Reads (⟦<StdSource<R> as Source>⟧.left self.old)
            (⟦<StdSource<R> as Source>⟧.left self.new) result buf.new }
        ensures cause { HasCause (⟦<StdSource<R> as Source>⟧.faults self.old)
            (⟦<StdSource<R> as Source>⟧.faults self.new) result }
        ensures strict { IsTrue true → OnOk result
            (⟦<StdSource<R> as Source>⟧.faults self.new
            ≡ ⟦<StdSource<R> as Source>⟧.faults self.old) }

        // The count rises by one where the read failed, and nowhere else.
        ensures faults { CountsFaults (⟦<StdSource<R> as Source>⟧.faults self.old)
            (⟦<StdSource<R> as Source>⟧.faults self.new) result }
    {
        for _ in 0..u64::MAX {
            match self.inner.read(buf) {
                Ok(count) => return Ok(count),
                Err(error) => {
                    if error.kind() != ErrorKind::Interrupted {
                        break;
                    }
                }
            }
        }
        self.faults = self.faults.saturating_add(1);
        Err(Failed)
    }
}

/// A writer of `std` as a sink. It passes the bytes on, and tells none: a writer may begin to tell
/// at any call, and a sink doesn't. It counts each write that fails or takes nothing, up to
/// 2^64 - 1, and nothing else.
#[derive(Drop)]
pub struct StdSink<W> {
    inner: W,
    faults: u64,
}

impl<W: Write> StdSink<W> {
    /// The sink over this writer, with no faults counted.
    pub fn new(inner: W) -> StdSink<W>
        ensures writer { writer_of result ≡ inner }
        ensures taken { ⟦<StdSink<W> as Sink>⟧.taken result ≡ None }
        ensures faults { ⟦<StdSink<W> as Sink>⟧.faults result ≡ 0 }
    {
        StdSink { inner, faults: 0 }
    }
}

impl<W: Write> Sink for StdSink<W> {
    ghost room = { λ _. None };

    ghost taken = { λ _. None };

    ghost faults = { λ s. s.faults };

    ghost is_strict = { true };

    ghost nothing = { λ _. refl };

    fn write(&mut self, piece: &[u8]) -> Result<usize, Failed>
        requires { 0 < length piece.now }
        ensures bound { IfOk result (λ n. (0 < n) × (n ≤ length piece.now)) }
        ensures cause { HasCause (⟦<StdSink<W> as Sink>⟧.faults self.old)
            (⟦<StdSink<W> as Sink>⟧.faults self.new) result }
        ensures strict { IsTrue true → OnOk result
            (⟦<StdSink<W> as Sink>⟧.faults self.new ≡ ⟦<StdSink<W> as Sink>⟧.faults self.old) }

        // The bytes that it took went to the writer.
        ensures passed { WriteAppends (W.contents (writer_of self.old))
            (W.contents (writer_of self.new)) result piece.now }

        // The count rises by one where the write failed or took nothing, and nowhere else.
        ensures faults { CountsFaults (⟦<StdSink<W> as Sink>⟧.faults self.old)
            (⟦<StdSink<W> as Sink>⟧.faults self.new) result }
    {
        match self.inner.write(piece) {
            Ok(count) if count > 0 => Ok(count),
            _ => {
                self.faults = self.faults.saturating_add(1);
                Err(Failed)
            }
        }
    }
}
