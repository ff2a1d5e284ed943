//! Each public call at a table of cases.

use super::*;
use std::alloc::{AllocError, Global};
use std::test::Fail;

/// The lines of a text, with `|` after each.
fn cut_lines(alloc: Global, text: &[u8]) -> Result<Vec<u8>, AllocError> {
    let mut all = Vec::new(alloc);
    let mut rest = text;
    for _ in 0..text.len() {
        if rest.is_empty() {
            break;
        }
        let (line, after) = next_line(rest);
        all.extend_from_slice(line)?;
        all.extend_from_slice(b"|")?;
        rest = after;
    }
    Ok(all)
}

#[test]
fn lines_end_at_line_feeds(rt: HostRuntime) -> Result<(), Fail> {
    let cases: [(&[u8], &[u8]); 7] = [
        (b"", b""),
        (b"a", b"a|"),
        (b"a\n", b"a|"),
        (b"a\r\n\r\nb\rc\r\r\n", b"a||b\rc\r|"),
        (b"\n\nx", b"||x|"),
        (b"\r", b"|"),
        (b"a\n\r", b"a||"),
    ];
    for (text, lines) in cases {
        let cut = cut_lines(rt.alloc(), text)?;
        assert_eq!(rt; cut.as_slice(), lines);
    }
    Ok(())
}

#[test]
fn fields_are_the_longest_runs(rt: HostRuntime) {
    let cases: [(&[u8], usize, Option<(&[u8], &[u8])>); 5] = [
        (b"", 0, None),
        (b" \t ", 0, None),
        (b"\tab\rc  d ", 2, Some((b"ab\rc", b"  d "))),
        (b"point 1 -2", 3, Some((b"point", b" 1 -2"))),
        (b"#a b", 2, Some((b"#a", b" b"))),
    ];
    for (line, count, first) in cases {
        assert_eq!(rt; count_fields(line), count);
        assert_eq!(rt; next_field(line), first);
    }
    assert!(rt; is_passed_over(b" \t"));
    assert!(rt; is_passed_over(b" #end"));
    assert!(rt; !is_passed_over(b"end #"));
    assert!(rt; says(b"end", b"end"));
    assert!(rt; !says(b"ends", b"end"));
}

#[test]
fn numbers_have_a_sign_or_none(rt: HostRuntime) {
    let cases: [(&[u8], Option<i128>); 10] = [
        (b"", None),
        (b"-", None),
        (b"+", None),
        (b"1.5", None),
        (b"--1", None),
        (b"007", Some(7)),
        (b"+12", Some(12)),
        (b"-0", Some(0)),
        (b"-9223372036854775808", Some(-9223372036854775808)),
        (
            b"99999999999999999999999999999999999999999",
            Some(18446744073709551615),
        ),
    ];
    for (field, value) in cases {
        assert_eq!(rt; number(field), value);
    }
    assert_eq!(rt; digits(b"-1"), None);
    assert_eq!(rt; digits(b"0100"), Some(100));
    assert_eq!(rt;
        number_within(b"-1000000", 1_000_000),
        NumberField::Value(-1_000_000)
    );
    assert_eq!(rt; number_within(b"1000001", 1_000_000), NumberField::Beyond);
    assert_eq!(rt;
        number_within(b"-99999999999999999999999999", 1_000_000),
        NumberField::Beyond
    );
    assert_eq!(rt; number_within(b"1e3", 1_000_000), NumberField::NotANumber);
}
