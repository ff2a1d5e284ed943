//! Texts of covers: what they say, their first faults, and what the check answers.

use super::*;
use cover_check::{CoverFault, check};
use std::alloc::Global;
use std::test::Fail;

/// An instance that permits the square from (0, 0) to (10, 10), in lengths, and its right half, and
/// forbids the square from (4, 4) to (6, 6).
const INSTANCE: &str =
    "siting 1\nkind sum\npoint 0 0 1\npermit 0 0 10 0 10 10 0 10\npermit 5 0 10 0 10 10 5 10\nforbid 4 4 6 4 6 6 4 6\nend\n";

/// What a text comes to: a fault of its own as 1, its number and its line, one of its instance as
/// 2, one of the check as 3, the place of the test and what it names; none as zeros.
fn outcome(alloc: Global, text: &str) -> (u8, u8, u64) {
    match read_cover(alloc, text.as_bytes()) {
        Err(CoverError::Fault(fault)) => (1, fault.number, fault.line),
        Err(CoverError::Instance(fault)) => (2, fault.number, fault.line),
        Err(CoverError::NoMemory) => (255, 0, 0),
        Ok(cover) => match check(alloc, &cover) {
            Ok(None) => (0, 0, 0),
            Ok(Some(CoverFault::Edges)) => (3, 1, 0),
            Ok(Some(CoverFault::Owner(line))) => (3, 2, line),
            Ok(Some(CoverFault::Triangle(line))) => (3, 3, line),
            Ok(Some(CoverFault::Tile(line))) => (3, 4, line),
            Ok(Some(CoverFault::Piece(number))) => (3, 5, number),
            Err(_) => (255, 0, 0),
        },
    }
}

#[test]
fn the_first_fault_of_a_text(rt: HostRuntime) -> Result<(), Fail> {
    let table = [
        ("", (1, 1, 1)),
        ("cover 2\n", (1, 1, 1)),
        ("# a comment\n\ncover 1 1\n", (1, 1, 3)),
        ("cover 1\n", (1, 9, 2)),
        ("cover 1\ntile 0 0 1 1\n", (1, 2, 2)),
        ("cover 1\nshift\n", (1, 2, 2)),
        ("cover 1\nshift 1 2\n", (1, 2, 2)),
        ("cover 1\nshift x\n", (1, 3, 2)),
        ("cover 1\nshift 21\n", (1, 4, 2)),
        ("cover 1\nshift -1\n", (1, 4, 2)),
        ("cover 1\nshift 20\nregion 0 0 1 0 0 1\n", (1, 2, 3)),
        ("cover 1\nshift 1\ntile 0 0 1\n", (1, 2, 3)),
        ("cover 1\nshift 1\ntile 0 0 1 1 1\n", (1, 2, 3)),
        ("cover 1\nshift 1\ntile 0 1.5 1 1\n", (1, 3, 3)),
        ("cover 1\nshift 1\ntile 0 0 1 2147483649\n", (1, 4, 3)),
        ("cover 1\nshift 1\ntile 1 0 0 1\n", (1, 5, 3)),
        ("cover 1\nshift 1\ntile 0 1 1 0\n", (1, 5, 3)),
        (
            "cover 1\nshift 1\ntile -2147483648 0 0 2147483648\n",
            (1, 9, 4),
        ),
    ];
    for (text, want) in table {
        assert_eq!(rt; outcome(rt.alloc(), text), want, "{text}");
    }
    Ok(())
}

#[test]
fn the_first_fault_of_a_body(rt: HostRuntime) -> Result<(), Fail> {
    let table = [
        ("end 1", (1, 2, 4)),
        ("permit 0 0 1 0 0 1", (1, 2, 4)),
        ("tile 0 0 1 1", (1, 2, 4)),
        ("region 0 0 1 0 0", (1, 2, 4)),
        ("region 0 0 x 0 0 1", (1, 3, 4)),
        ("region 0 0 1 0 0 -2147483649", (1, 4, 4)),
        ("region 0 0 1 0", (1, 6, 4)),
        ("region", (1, 6, 4)),
        ("forbidden 0 0 1 0", (1, 6, 4)),
        ("triangle 0 0 1 0 0 1", (1, 2, 4)),
        ("triangle 0 0 1 0 0 1 1 1", (1, 2, 4)),
        ("triangle 0 0 1 0 0 y 1", (1, 3, 4)),
        ("triangle 0 0 1 0 0 1 -1", (1, 4, 4)),
        ("triangle 0 0 1 0 0 1 1000001", (1, 4, 4)),
        ("\n#\nregion 0 0 1 0 0 1\ntriangle 0 0 1 0 0 1 1", (1, 9, 8)),
        ("end\nsiting 1\nend", (2, 12, 6)),
        ("end", (2, 1, 5)),
    ];
    for (body, want) in table {
        let text = format!(in rt.alloc(); "cover 1\nshift 1\ntile 0 0 20 20\n{body}\n")?;
        assert_eq!(rt; outcome(rt.alloc(), text.as_str()), want, "{body}");
    }
    Ok(())
}

/// The square of the instance as a region, with the forbidden square, and the same with a triangle
/// left out, doubled, or moved by a unit; an owner that is too small; a forbidden ring reversed.
#[test]
fn a_square_with_a_forbidden_square(rt: HostRuntime) -> Result<(), Fail> {
    let region = "region 0 0 20 0 20 20 0 20\n";
    let barred = "forbidden 8 8 12 8 12 12 8 12\n";
    let lower = "triangle 0 0 20 0 20 20 1\n";
    let upper = "triangle 0 0 20 20 0 20 1\n";
    let table = [
        (region, barred, lower, upper, (0, 0, 0)),
        (
            region,
            "forbidden 7 7 13 7 13 13 7 13\n",
            lower,
            upper,
            (0, 0, 0),
        ),
        (region, barred, lower, "", (3, 1, 0)),
        (region, barred, lower, lower, (3, 1, 0)),
        (
            region,
            barred,
            "triangle 0 0 20 0 20 21 1\n",
            upper,
            (3, 1, 0),
        ),
        (
            "region 0 0 20 0 20 21 0 20\n",
            barred,
            lower,
            upper,
            (3, 1, 0),
        ),
        (
            "region 0 0 0 20 20 20 20 0\n",
            barred,
            lower,
            upper,
            (3, 1, 0),
        ),
        (
            region,
            barred,
            "triangle 0 0 20 0 20 20 2\n",
            upper,
            (3, 3, 6),
        ),
        (
            region,
            barred,
            "triangle 0 0 20 0 20 20 3\n",
            upper,
            (3, 2, 6),
        ),
        (
            region,
            barred,
            lower,
            "triangle 0 0 20 20 0 20 0\n",
            (3, 4, 7),
        ),
        (region, "", lower, upper, (3, 5, 1)),
        (
            region,
            "forbidden 8 8 8 12 12 12 12 8\n",
            lower,
            upper,
            (3, 5, 1),
        ),
        (
            region,
            "forbidden 9 8 12 8 12 12 8 12\n",
            lower,
            upper,
            (3, 5, 1),
        ),
    ];
    for (region, barred, lower, upper, want) in table {
        let text = format!(in rt.alloc();
            "cover 1\nshift 1\ntile 0 0 20 20\n{region}{barred}{lower}{upper}end\n{INSTANCE}"
        )?;
        assert_eq!(rt; outcome(rt.alloc(), text.as_str()), want, "{text}");
    }
    Ok(())
}
