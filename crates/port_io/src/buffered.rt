//! Output through a buffer of fixed size.

ghost use Rattle.std.specs.Prelude.{◌≡◌, ◌<◌, [], length, OnOk, is_err};
ghost use Rattle.std.specs.Fmt.{signed_decimal};
ghost use Rattle.std.specs.List.{flat_map};
ghost use Rattle.port_io.specs.Output.{PutOn, Wrote, IsOpen, has_failed, sink_of, sink_view, stage};
ghost use Rattle.port_io.specs.Output.{fresh, piece_text};

use crate::buffer::Buffer;
use crate::ports::Sink;

/// A write that failed. The sink's count of faults rose, and it took a front of what was put.
#[derive(Clone, Copy, Debug, PartialEq, Eq)]
pub struct WriteFault;

/// Writes all bytes to the sink.
fn write_all<K: Sink>(sink: &mut K, bytes: &[u8]) -> Result<(), WriteFault>
    ensures { Wrote (sink_view K.room K.taken K.faults K.is_strict sink.old)
        (sink_view K.room K.taken K.faults K.is_strict sink.new) bytes.now result }
{
    let mut at = 0;
    while at < bytes.len() {
        match sink.write(&bytes[at..]) {
            Ok(count) => at += count,
            Err(_) => return Err(WriteFault),
        }
    }
    Ok(())
}

/// A piece of a text that is put.
#[derive(Clone, Copy)]
pub enum Piece<'a> {
    /// Bytes, put as they stand.
    Text(&'a [u8]),
    /// A whole number in decimal.
    Number(i64),
}

/// Output to a sink through a buffer of 4,096 bytes. It takes no memory. As long as fewer bytes
/// wait than the buffer holds, nothing goes to the sink.
///
/// No call may follow one that failed. After `finish` answered `Ok` the sink has taken all that
/// was put. Where a call answers `WriteFault`, the sink's count of faults rose in it, and the
/// sink has taken a front of what was put.
#[derive(Drop)]
pub struct Out<'a, K: Sink> {
    sink: &'a mut K,
    waiting: Buffer,
    failed: bool,
}

impl<'a, K: Sink> Out<'a, K> {
    /// Output to this sink, with nothing put yet.
    pub fn new(sink: &'a mut K) -> Out<'a, K>
        ensures same { sink_of result ≡ sink.entry.ghost_name }
        ensures stage { stage K.room K.taken K.faults K.is_strict result
            ≡ fresh (sink_view K.room K.taken K.faults K.is_strict sink.old) }
    {
        Out {
            sink,
            waiting: Buffer::new(),
            failed: false,
        }
    }

    /// Whether a call on it failed.
    pub fn failed(&self) -> bool
        ensures { result ≡ has_failed self.now }
    {
        self.failed
    }

    /// Puts these bytes.
    pub fn put(&mut self, bytes: &[u8]) -> Result<(), WriteFault>
        requires { IsOpen self.old }
        ensures { PutOn K.room K.taken K.faults K.is_strict self.old self.new bytes.now result }
    {
        let mut at = 0;
        while at < bytes.len() {
            self.make_space()?;
            at += self.waiting.keep(&bytes[at..]);
        }
        Ok(())
    }

    /// Puts this number in decimal, with a `-` before a negative one.
    pub fn put_number(&mut self, n: i64) -> Result<(), WriteFault>
        requires { IsOpen self.old }
        ensures { PutOn K.room K.taken K.faults K.is_strict self.old self.new
            (signed_decimal n) result }
    {
        let mut digits = itoa::Buffer::new();
        self.put(digits.format(n).as_bytes())
    }

    /// Puts these pieces, one after another.
    pub fn put_pieces(&mut self, pieces: &[Piece<'_>]) -> Result<(), WriteFault>
        requires { IsOpen self.old }
        ensures { PutOn K.room K.taken K.faults K.is_strict self.old self.new
            (flat_map piece_text pieces.now) result }
    {
        for piece in pieces {
            self.put_piece(*piece)?;
        }
        Ok(())
    }

    /// Puts one piece.
    fn put_piece(&mut self, piece: Piece<'_>) -> Result<(), WriteFault>
        requires { IsOpen self.old }
        ensures { PutOn K.room K.taken K.faults K.is_strict self.old self.new
            (piece_text piece.entry) result }
    {
        match piece {
            Piece::Text(bytes) => self.put(bytes),
            Piece::Number(n) => self.put_number(n),
        }
    }

    /// Leaves space for a byte at least.
    fn make_space(&mut self) -> Result<(), WriteFault>
        requires { IsOpen self.old }
        ensures put { PutOn K.room K.taken K.faults K.is_strict self.old self.new [] result }
        ensures space { OnOk result (length self.new.waiting < 4096) }
    {
        if self.waiting.is_full() {
            self.flush()
        } else {
            Ok(())
        }
    }

    /// Writes what waits to the sink.
    fn flush(&mut self) -> Result<(), WriteFault>
        requires { IsOpen self.old }
        ensures same { sink_of self.new ≡ sink_of self.old }
        ensures wrote { Wrote (sink_view K.room K.taken K.faults K.is_strict self.old.sink.now)
            (sink_view K.room K.taken K.faults K.is_strict self.new.sink.now)
            self.old.waiting result }
        ensures failed { has_failed self.new ≡ is_err result }
        ensures empty { OnOk result (self.new.waiting ≡ []) }
    {
        match write_all(self.sink, self.waiting.as_slice()) {
            Ok(()) => {
                self.waiting.clear();
                Ok(())
            }
            Err(fault) => {
                self.failed = true;
                Err(fault)
            }
        }
    }

    /// Ends the output: after `Ok` the sink has taken all that was put.
    pub fn finish(self) -> Result<(), WriteFault>
        requires { IsOpen self }
        ensures { Wrote (sink_view K.room K.taken K.faults K.is_strict self.entry.sink.now)
            (sink_view K.room K.taken K.faults K.is_strict self.exit.0.now)
            self.entry.waiting result }
    {
        let Out {
            sink,
            waiting,
            failed: _,
        } = self;
        write_all(sink, waiting.as_slice())
    }
}
