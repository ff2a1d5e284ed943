//! What the program writes to its sink: one line.

ghost use Rattle.std.specs.Prelude.{◌++◌, codes};
ghost use Rattle.port_io.specs.Output.{Wrote, sink_view};
ghost use Rattle.cover_cli.specs.Texts as texts;
ghost use Rattle.cover_cli.specs.Texts.{text_of};
ghost use Rattle.cover_cli.specs.Outcome.{Says};

use crate::status::{Status, Verdict};
use cover_check::CoverFault;
use port_io::{Out, Piece, Sink, WriteFault};

/// Writes what the bytes come to, to end with it.
pub(crate) fn say<K: Sink>(verdict: Verdict, sink: &mut K) -> Status
    ensures { Says (sink_view K.room K.taken K.faults K.is_strict sink.old)
        (sink_view K.room K.taken K.faults K.is_strict sink.new) verdict result }
{
    match put_verdict(&verdict, sink) {
        Ok(()) => Status::Said(verdict),
        Err(WriteFault) => Status::WriteFault,
    }
}

/// Writes what the bytes come to.
fn put_verdict<K: Sink>(verdict: &Verdict, sink: &mut K) -> Result<(), WriteFault>
    ensures { Wrote (sink_view K.room K.taken K.faults K.is_strict sink.old)
        (sink_view K.room K.taken K.faults K.is_strict sink.new) (text_of verdict.now) result }
{
    match verdict {
        Verdict::Covered => put_text(b"covered\n", sink),
        Verdict::BadCover(fault) => put_fault(b"bad cover ", fault.number, fault.line, sink),
        Verdict::BadInstance(fault) => put_fault(b"bad instance ", fault.number, fault.line, sink),
        Verdict::Uncovered(fault) => put_uncovered(*fault, sink),
        Verdict::TooLong => put_text(b"too long\n", sink),
    }
}

/// Writes which test of a cover fails.
fn put_uncovered<K: Sink>(fault: CoverFault, sink: &mut K) -> Result<(), WriteFault>
    ensures { Wrote (sink_view K.room K.taken K.faults K.is_strict sink.old)
        (sink_view K.room K.taken K.faults K.is_strict sink.new) (texts.uncovered fault) result }
{
    match fault {
        CoverFault::Edges => put_text(b"uncovered edges\n", sink),
        CoverFault::Owner(line) => put_number(b"uncovered owner line ", line, sink),
        CoverFault::Triangle(line) => put_number(b"uncovered triangle line ", line, sink),
        CoverFault::Tile(line) => put_number(b"uncovered tile line ", line, sink),
        CoverFault::Piece(number) => put_number(b"uncovered piece ", number, sink),
    }
}

/// Writes a fault by its number and its line, after a word.
fn put_fault<K: Sink>(word: &[u8], number: u8, line: u64, sink: &mut K) -> Result<(), WriteFault>
    ensures { Wrote (sink_view K.room K.taken K.faults K.is_strict sink.old)
        (sink_view K.room K.taken K.faults K.is_strict sink.new)
        (texts.fault_text word.now number line) result }
{
    let mut first = itoa::Buffer::new();
    let mut second = itoa::Buffer::new();
    put_four(
        word,
        first.format(number).as_bytes(),
        b" line ",
        second.format(line).as_bytes(),
        sink,
    )
}

/// Writes a number, after a word.
fn put_number<K: Sink>(word: &[u8], number: u64, sink: &mut K) -> Result<(), WriteFault>
    ensures { Wrote (sink_view K.room K.taken K.faults K.is_strict sink.old)
        (sink_view K.room K.taken K.faults K.is_strict sink.new)
        (texts.number_text word.now number) result }
{
    let mut buffer = itoa::Buffer::new();
    put_two(word, buffer.format(number).as_bytes(), sink)
}

/// Writes a line of two parts.
fn put_two<'x, K: Sink>(word: &'x [u8], number: &'x [u8], sink: &mut K) -> Result<(), WriteFault>
    ensures { Wrote (sink_view K.room K.taken K.faults K.is_strict sink.old)
        (sink_view K.room K.taken K.faults K.is_strict sink.new)
        (word.now ++ (number.now ++ codes "\n")) result }
{
    let mut out = Out::new(sink);
    out.put_pieces(&[Piece::Text(word), Piece::Text(number), Piece::Text(b"\n")])?;
    out.finish()
}

/// Writes a line of four parts.
fn put_four<'x, K: Sink>(
    word: &'x [u8],
    first: &'x [u8],
    between: &'x [u8],
    second: &'x [u8],
    sink: &mut K,
) -> Result<(), WriteFault>
    ensures { Wrote (sink_view K.room K.taken K.faults K.is_strict sink.old)
        (sink_view K.room K.taken K.faults K.is_strict sink.new)
        (word.now ++ (first.now ++ (between.now ++ (second.now ++ codes "\n")))) result }
{
    let mut out = Out::new(sink);
    out.put_pieces(&[
        Piece::Text(word),
        Piece::Text(first),
        Piece::Text(between),
        Piece::Text(second),
        Piece::Text(b"\n"),
    ])?;
    out.finish()
}

/// Writes a text.
fn put_text<K: Sink>(text: &[u8], sink: &mut K) -> Result<(), WriteFault>
    ensures { Wrote (sink_view K.room K.taken K.faults K.is_strict sink.old)
        (sink_view K.room K.taken K.faults K.is_strict sink.new) text.now result }
{
    let mut out = Out::new(sink);
    out.put(text)?;
    out.finish()
}
