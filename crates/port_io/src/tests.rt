//! Faults in mid-stream, and each public call where nothing fails.

ghost use Rattle.std.specs.Prelude.{◌≡◌, ◌≤◌, ◌++◌, codes, IfOk};
ghost use Rattle.std.specs.Fmt.{signed_decimal};
ghost use Rattle.port_io.specs.Output.{Wrote, sink_view};

use super::*;
use std::io::{self, ErrorKind, Read, Write};
use std::test::Fail;

/// Writes a line through an `Out`, from its making to its end.
fn write_line<K: Sink>(sink: &mut K, number: i64) -> Result<(), WriteFault>
    ensures { Wrote (sink_view K.room K.taken K.faults K.is_strict sink.old)
        (sink_view K.room K.taken K.faults K.is_strict sink.new)
        (codes "the number is " ++ (signed_decimal number ++ codes "\n")) result }
{
    let mut out = Out::new(sink);
    out.put_pieces(&[
        Piece::Text(b"the number is "),
        Piece::Number(number),
        Piece::Text(b"\n"),
    ])?;
    out.finish()
}

/// Each port may be handed to another thread.
fn hand_over<T: Send>(port: T) -> T
    ensures { result ≡ port }
{
    port
}

#[test]
fn a_sink_takes_what_came_before_its_fault(rt: HostRuntime) -> Result<(), Fail> {
    // A listed 0 is the number of no call.
    for (room, fails, answer, taken) in [
        (100, &[0], Ok(()), "the number is -9223372036854775808\n"),
        (100, &[3], Err(WriteFault), "the number is -92233"),
        (100, &[1], Err(WriteFault), ""),
        (25, &[0], Err(WriteFault), "the number is -9223372036"),
        (0, &[0], Err(WriteFault), ""),
    ] {
        let fails = Vec::from_slice(rt.alloc(), fails)?;
        let sink = MemSink::with_room(rt.alloc(), room, 10, fails).map_err(|_| "memory")?;
        let mut sink = hand_over(sink);
        assert_eq!(rt; write_line(&mut sink, i64::MIN), answer);
        assert_eq!(rt; sink.bytes(), taken.as_bytes());
    }
    Ok(())
}

#[test]
fn a_sure_sink_tells_what_fits_its_room(rt: HostRuntime) -> Result<(), Fail> {
    for (room, told) in [
        (17, Some(b"the number is 12\n".as_slice())),
        (16, None),
        (0, None),
    ] {
        let sink = SureSink::with_room(rt.alloc(), room).map_err(|_| "memory")?;
        let mut sink = hand_over(sink);
        assert_eq!(rt; write_line(&mut sink, 12), Ok(()));
        assert_eq!(rt; sink.bytes(), told);
    }
    Ok(())
}

fn answer_of(read: &Result<Vec<u8>, ReadAll>) -> &'static str {
    match read {
        Ok(_) => "read",
        Err(ReadAll::TooLong) => "too long",
        Err(ReadAll::ReadFault) => "read fault",
        Err(ReadAll::NoMemory) => "out of memory",
    }
}

#[test]
fn a_whole_input_is_read(rt: HostRuntime) -> Result<(), Fail> {
    let text = b"thirty bytes of one short text";
    for (fails, limit, answer) in [
        (&[0], 30, "read"),
        (&[2], 30, "read fault"),
        (&[4], 30, "read fault"),
        (&[5], 30, "read"),
        (&[0], 29, "too long"),
    ] {
        let held = Vec::from_slice(rt.alloc(), text)?;
        let source = MemSource::new(held, 10, Vec::from_slice(rt.alloc(), fails)?);
        let mut source = hand_over(source);
        let read = read_up_to(rt.alloc(), &mut source, limit);
        assert_eq!(rt; answer_of(&read), answer);
        if let Ok(read) = read {
            assert_eq!(rt; read.as_slice(), text.as_slice());
        }
    }
    let mut source = hand_over(SureSource::new(Vec::from_slice(rt.alloc(), text)?));
    let read = read_up_to(rt.alloc(), &mut source, 30)?;
    assert_eq!(rt; read.as_slice(), text.as_slice());
    let mut source = hand_over(SliceSource::new(text.as_slice()));
    let read = read_up_to(rt.alloc(), &mut source, 30)?;
    assert_eq!(rt; read.as_slice(), text.as_slice());
    Ok(())
}

#[test]
fn readers_and_writers_of_std_are_ports(rt: HostRuntime) -> Result<(), Fail> {
    let mut source = hand_over(StdSource::new(b"over std".as_slice()));
    let read = read_up_to(rt.alloc(), &mut source, 8)?;
    assert_eq!(rt; read.as_slice(), b"over std".as_slice());

    let mut written = Vec::new(rt.alloc());
    let mut sink = hand_over(StdSink::new(&mut written));
    assert_eq!(rt; write_line(&mut sink, 7), Ok(()));
    assert_eq!(rt; written.as_slice(), b"the number is 7\n".as_slice());
    Ok(())
}

/// What a call of a `Choppy` does.
#[derive(Clone, Copy)]
enum Call {
    /// Reads or takes one byte.
    Byte,
    /// Takes nothing.
    Nothing,
    /// Fails.
    Fails(ErrorKind),
}

/// A reader of `x`, and a writer, whose calls do what is listed, and then find the end.
#[derive(Drop)]
struct Choppy {
    calls: &'static [Call],
}

impl Choppy {
    /// What the next call answers.
    fn next(&mut self) -> io::Result<usize>
        ensures { IfOk result (λ n. n ≤ 1) }
    {
        let [call, after @ ..] = self.calls else {
            return Ok(0);
        };
        self.calls = after;
        match *call {
            Call::Byte => Ok(1),
            Call::Nothing => Ok(0),
            Call::Fails(kind) => Err(kind.into()),
        }
    }
}

impl Read for Choppy {
    fn read(&mut self, buf: &mut [u8]) -> io::Result<usize> {
        if buf.is_empty() {
            return Ok(0);
        }
        buf[0] = b'x';
        self.next()
    }
}

impl Write for Choppy {
    fn write(&mut self, buf: &[u8]) -> io::Result<usize> {
        if buf.is_empty() {
            return Ok(0);
        }
        self.next()
    }

    fn flush(&mut self) -> io::Result<()> {
        Ok(())
    }
}

#[test]
fn a_reader_of_std_that_fails(rt: HostRuntime) -> Result<(), Fail> {
    let table: [(&'static [Call], &str); 5] = [
        (&[Call::Byte, Call::Byte], "read"),
        (
            &[Call::Byte, Call::Fails(ErrorKind::Interrupted), Call::Byte],
            "read",
        ),
        (
            &[Call::Byte, Call::Fails(ErrorKind::Other), Call::Byte],
            "read fault",
        ),
        (&[Call::Fails(ErrorKind::NotFound)], "read fault"),
        (
            &[
                Call::Byte,
                Call::Byte,
                Call::Byte,
                Call::Fails(ErrorKind::Other),
            ],
            "too long",
        ),
    ];
    for (calls, answer) in table {
        let mut source = StdSource::new(Choppy { calls });
        let read = read_up_to(rt.alloc(), &mut source, 2);
        assert_eq!(rt; answer_of(&read), answer);
        if let Ok(read) = read {
            assert_eq!(rt; read.as_slice(), b"xx".as_slice());
        }
    }
    Ok(())
}

#[test]
fn a_writer_of_std_that_fails(rt: HostRuntime) {
    let table: [(
        &'static [Call],
        Result<usize, Failed>,
        Result<usize, Failed>,
    ); 4] = [
        (&[Call::Byte, Call::Byte], Ok(1), Ok(1)),
        (
            &[Call::Byte, Call::Fails(ErrorKind::Other), Call::Byte],
            Ok(1),
            Err(Failed),
        ),
        (
            &[Call::Fails(ErrorKind::Other), Call::Byte],
            Err(Failed),
            Ok(1),
        ),
        (&[Call::Byte, Call::Nothing, Call::Byte], Ok(1), Err(Failed)),
    ];
    for (calls, first, second) in table {
        let mut sink = StdSink::new(Choppy { calls });
        assert_eq!(rt; sink.write(b"ab"), first);
        assert_eq!(rt; sink.write(b"ab"), second);
    }
}

/// Writes a text, a number and the text again.
fn write_around<K: Sink>(sink: &mut K, text: &[u8]) -> Result<(), WriteFault> {
    let mut out = Out::new(sink);
    out.put(text)?;
    out.put_number(-1)?;
    out.put(text)?;
    out.finish()
}

#[test]
fn long_texts_pass_the_buffer(rt: HostRuntime) -> Result<(), Fail> {
    let text = vec![in rt.alloc(); b'x'; 5000]?;
    let fails = Vec::new(rt.alloc());
    let mut sink = MemSink::with_room(rt.alloc(), 10002, 4096, fails).map_err(|_| "memory")?;
    assert_eq!(rt; write_around(&mut sink, &text), Ok(()));
    assert_eq!(rt; sink.bytes().len(), 10002);
    assert_eq!(rt; &sink.bytes()[4999..5003], b"x-1x".as_slice());
    Ok(())
}
