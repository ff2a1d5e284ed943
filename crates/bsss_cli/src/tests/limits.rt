//! Instances at their limits, and past them.

use super::{CORNER, CORNER_ANSWER, run_words, sink_of, words_of};
use crate::{OpenGate, Status, run};
use port_io::{MemSink, MemSource};
use std::alloc::Global;
use std::fmt::Write;
use std::test::Fail;

#[test]
fn an_instance_text_has_at_most_a_mebibyte(rt: HostRuntime) -> Result<(), Fail> {
    let words = words_of(rt.alloc(), "solve gap=0")?;
    for (length, code) in [(1_048_576, 0), (1_048_577, 9)] {
        let mut held = Vec::new(rt.alloc());
        held.resize(length - CORNER.len() - 1, b'#')?;
        held.push(b'\n')?;
        held.extend_from_slice(CORNER.as_bytes())?;
        let mut source = MemSource::new(held, 65536, Vec::new(rt.alloc()));
        let mut sink = sink_of(rt.alloc(), 64, 0)?;
        let status = run(&rt, rt.alloc(), &words, &mut source, &mut sink, &OpenGate);
        assert_eq!(rt; status.code(), code);
        let wanted = if code == 0 {
            CORNER_ANSWER
        } else {
            "too long\n"
        };
        assert_eq!(rt; sink.bytes(), wanted.as_bytes());
    }
    Ok(())
}

/// Adds a polygon line with this many vertices, all on one parabola.
fn push_polygon(text: &mut String, word: &str, vertices: u8) -> Result<(), Fail> {
    text.push_str(word)?;
    for i in 0..vertices {
        let x = i64::from(i) - 32;
        write!(text, " {} {}", x, x * x)?;
    }
    text.push('\n')?;
    Ok(())
}

/// An instance of so many points of this weight, so many polygons of each word, and vertices of
/// each polygon.
fn large_text(
    alloc: Global,
    points: u16,
    weight: i32,
    polygons: u8,
    vertices: u8,
) -> Result<String, Fail> {
    let mut text = String::new(alloc);
    text.push_str("siting 1\nkind max\n")?;
    for i in 0..points {
        let x = 1_000_000 - i64::from(i);
        write!(&mut text, "point {} {} {}\n", x, -x, weight)?;
    }
    for word in ["permit", "forbid"] {
        for _ in 0..polygons {
            push_polygon(&mut text, word, vertices)?;
        }
    }
    text.push_str("end\n")?;
    Ok(text)
}

#[test]
fn an_instance_at_every_limit(rt: HostRuntime) -> Result<(), Fail> {
    let text = large_text(rt.alloc(), 4096, 3906, 64, 64)?;
    let words = words_of(rt.alloc(), "solve budget=0")?;
    let held = Vec::from_slice(rt.alloc(), text.as_bytes())?;
    let mut source = MemSource::new(held, 65536, Vec::new(rt.alloc()));
    let mut sink = MemSink::with_room(rt.alloc(), 400_000, 65536, Vec::new(rt.alloc()))?;
    let status = run(&rt, rt.alloc(), &words, &mut source, &mut sink, &OpenGate);
    assert_eq!(rt; status, Status::Budget);

    // Each limit passed by one: the points, the weights, the polygons, the vertices.
    let cases = [
        ((4097, 1, 1, 3), "bad instance 6 line 4099\n"),
        ((4096, 3907, 1, 3), "bad instance 7 line 4098\n"),
        ((1, 1, 65, 3), "bad instance 11 line 68\n"),
        ((1, 1, 1, 65), "bad instance 9 line 4\n"),
    ];
    for ((points, weight, polygons, vertices), wanted) in cases {
        let text = large_text(rt.alloc(), points, weight, polygons, vertices)?;
        let (code, sink) = run_words(&rt, rt.alloc(), "solve budget=0", text.as_str())?;
        assert_eq!(rt; code, 3);
        assert_eq!(rt; sink.bytes(), wanted.as_bytes());
    }
    Ok(())
}
