//! Answers with one line changed, and what `check` writes of them.

use super::tests::{CORNER_ANSWER, run_words};
use std::alloc::Global;
use std::sync::Wait;
use std::test::Fail;
use std::thread::Threads;

/// A line of an answer, and what `check` writes where the line is missing, and where it stands
/// twice.
type Line = (&'static str, &'static str, &'static str);

/// The number of a line, what stands in its place, and what `check` then writes.
/// Each number of each line has one digit changed; some lines have another letter or word.
type Change = (usize, &'static str, &'static str);

/// An answer that a full pool ended, of the kind max and with a cutoff.
#[rattlefmt::skip]
const POOL_FULL: [Line; 28] = [
    ("siting answer 2", "rejected 1 line 1", "rejected 2 line 2"),
    ("siting 2", "rejected 2 line 2", "rejected 2 line 2"),
    ("kind max", "rejected 2 line 2", "rejected 2 line 2"),
    ("point 3 8 1 4", "rejected 2 line 2", "accepted"),
    ("point 5 4 -2", "accepted", "accepted"),
    ("permit 8 1 8 6 0 5", "rejected 2 line 2", "accepted"),
    ("forbid 9 4 5 6 1 0", "accepted", "accepted"),
    ("end", "rejected 2 line 2", "rejected 1 line 9"),
    ("gap 262", "rejected 1 line 9", "rejected 1 line 10"),
    ("budget 9", "rejected 1 line 10", "rejected 1 line 11"),
    ("pool 7", "rejected 1 line 11", "rejected 1 line 12"),
    ("site 262144 327680", "rejected 1 line 12", "rejected 1 line 13"),
    ("cost 207243 207244", "rejected 1 line 13", "rejected 1 line 14"),
    ("bound 0", "rejected 1 line 14", "rejected 1 line 15"),
    ("answer pool_full", "rejected 1 line 15", "rejected 1 line 16"),
    ("open 5", "rejected 1 line 16", "rejected 1 line 17"),
    ("leases 5", "rejected 1 line 17", "rejected 1 line 18"),
    ("root 0 65536 20", "rejected 1 line 18", "rejected 1 line 19"),
    ("S 262144", "rejected 8 line 20 has 196608 wants 0", "rejected 10 line 20"),
    ("S 207244", "rejected 8 line 20 has 196608 wants 0", "rejected 9 line 22"),
    ("O 196608", "rejected 8 line 21 has 207243 wants 196608", "rejected 8 line 22 has 196608 wants 207243"),
    ("B 207243", "rejected 8 line 22 has 0 wants 207243", "rejected 8 line 23 has 207243 wants 0"),
    ("O 0", "rejected 8 line 23 has 65536 wants 0", "rejected 8 line 24 has 0 wants 65536"),
    ("O 65536", "rejected 8 line 24 has 262144 wants 65536", "rejected 8 line 25 has 65536 wants 262144"),
    ("B 262144", "rejected 7 line 25", "rejected 9 line 26"),
    ("X", "rejected 5 line 27", "rejected 6 line 28"),
    ("X", "rejected 5 line 27", "rejected 6 line 28"),
    ("end", "rejected 1 line 28", "rejected 1 line 29"),
];

#[rattlefmt::skip]
const POOL_FULL_CHANGES: [Change; 53] = [
    (1, "siting answer 3", "rejected 1 line 1"),
    (2, "siting 3", "rejected 2 line 2"),
    (4, "point 4 8 1 4", "rejected 4 line 13 has 207243 wants 196608"),
    (4, "point 3 9 1 4", "rejected 4 line 13 has 207243 wants 262144"),
    (4, "point 3 8 2 4", "rejected 4 line 13 has 207243 wants 414486"),
    (4, "point 3 8 1 5", "rejected 8 line 25 has 262144 wants 327680"),
    (5, "point 6 4 -2", "accepted"),
    (5, "point 5 5 -2", "accepted"),
    (5, "point 5 4 -3", "accepted"),
    (6, "permit 9 1 8 6 0 5", "accepted"),
    (6, "permit 8 2 8 6 0 5", "rejected 1 line 18"),
    (6, "permit 8 1 9 6 0 5", "accepted"),
    (6, "permit 8 1 8 7 0 5", "rejected 14 line 13 has 207244 wants 185364"),
    (6, "permit 8 1 8 6 1 5", "rejected 1 line 18"),
    (6, "permit 8 1 8 6 0 6", "rejected 14 line 13 has 207244 wants 185364"),
    (7, "forbid 0 4 5 6 1 0", "rejected 2 line 2"),
    (7, "forbid 9 5 5 6 1 0", "accepted"),
    (7, "forbid 9 4 6 6 1 0", "accepted"),
    (7, "forbid 9 4 5 7 1 0", "rejected 3 line 12"),
    (7, "forbid 9 4 5 6 2 0", "accepted"),
    (7, "forbid 9 4 5 6 1 1", "accepted"),
    (9, "gap 263", "accepted"),
    (10, "budget 0", "rejected 13 line 28"),
    (11, "pool 8", "rejected 13 line 28"),
    (12, "site 362144 327680", "rejected 3 line 12"),
    (12, "site 262144 427680", "rejected 3 line 12"),
    (13, "cost 207244 207244", "rejected 4 line 13 has 207244 wants 207243"),
    (13, "cost 207243 207245", "rejected 4 line 13 has 207245 wants 207244"),
    (14, "bound 1", "rejected 11 line 28 has 1 wants 0"),
    (14, "bound none", "rejected 11 line 28 has none wants 0"),
    (15, "answer budget", "rejected 13 line 28"),
    (15, "answer solved", "rejected 12 line 28"),
    (15, "answer empty", "rejected 12 line 28"),
    (16, "open 6", "accepted"),
    (17, "leases 6", "accepted"),
    (18, "root 1 65536 20", "rejected 1 line 18"),
    (18, "root 0 65537 20", "rejected 1 line 18"),
    (18, "root 0 65536 21", "rejected 1 line 18"),
    (19, "S 262145", "rejected 10 line 19"),
    (19, "S -", "rejected 10 line 19"),
    (19, "X", "rejected 7 line 19"),
    (20, "S 207245", "rejected 10 line 20"),
    (20, "O 196608", "rejected 8 line 20 has 196608 wants 0"),
    (21, "O 196609", "rejected 8 line 21 has 196609 wants 196608"),
    (21, "B 196608", "rejected 9 line 21"),
    (22, "B 207244", "rejected 8 line 22 has 207244 wants 207243"),
    (22, "O 207243", "rejected 9 line 22"),
    (23, "O 1", "rejected 8 line 23 has 1 wants 0"),
    (23, "F 0", "rejected 9 line 23"),
    (23, "S 262144", "rejected 8 line 24 has 65536 wants 92681"),
    (24, "O 65537", "rejected 8 line 24 has 65537 wants 65536"),
    (25, "B 262145", "rejected 8 line 25 has 262145 wants 262144"),
    (26, "O 262144", "rejected 9 line 26"),
];

/// An answer without a site: what is permitted lies on one line, and no vertex is permitted.
#[rattlefmt::skip]
const NO_SITE: [Line; 29] = [
    ("siting answer 1", "rejected 1 line 1", "rejected 2 line 2"),
    ("siting 1", "rejected 2 line 2", "rejected 2 line 2"),
    ("kind sum", "rejected 2 line 2", "rejected 2 line 2"),
    ("point 2 5 3", "rejected 8 line 21 has 353530 wants -236294", "rejected 8 line 23 has 353530 wants 943354"),
    ("point 3 0 -1", "rejected 8 line 21 has 353530 wants 589824", "rejected 8 line 23 has 353530 wants 117237"),
    ("permit 0 0 4 0 0 4", "rejected 2 line 2", "accepted"),
    ("forbid 1 -50 1 50 -50 0", "rejected 14 line 13 has none wants 111949", "accepted"),
    ("forbid 1 -50 50 0 1 50", "rejected 14 line 13 has none wants 993231", "accepted"),
    ("end", "rejected 2 line 2", "rejected 1 line 10"),
    ("gap 65536", "rejected 1 line 10", "rejected 1 line 11"),
    ("budget 2", "rejected 1 line 11", "rejected 1 line 12"),
    ("pool 100000", "rejected 1 line 12", "rejected 1 line 13"),
    ("site none", "rejected 1 line 13", "rejected 1 line 14"),
    ("cost none", "rejected 1 line 14", "rejected 1 line 15"),
    ("bound -559940", "rejected 1 line 15", "rejected 1 line 16"),
    ("answer budget", "rejected 1 line 16", "rejected 1 line 17"),
    ("open 0", "rejected 1 line 17", "rejected 1 line 18"),
    ("leases 2", "rejected 1 line 18", "rejected 1 line 19"),
    ("root 0 0 19", "rejected 1 line 19", "rejected 1 line 20"),
    ("S -", "rejected 8 line 21 has 353530 wants -131072", "rejected 10 line 22"),
    ("S -", "rejected 8 line 21 has 353530 wants -131072", "rejected 10 line 22"),
    ("O 353530", "rejected 7 line 22", "rejected 9 line 23"),
    ("X", "rejected 9 line 23", "rejected 7 line 24"),
    ("O -131072", "rejected 7 line 24", "rejected 9 line 25"),
    ("X", "rejected 9 line 26", "rejected 7 line 27"),
    ("X", "rejected 9 line 26", "rejected 7 line 27"),
    ("O -559940", "rejected 7 line 27", "rejected 9 line 28"),
    ("X", "rejected 5 line 28", "rejected 6 line 29"),
    ("end", "rejected 1 line 29", "rejected 1 line 30"),
];

#[rattlefmt::skip]
const NO_SITE_CHANGES: [Change; 43] = [
    (1, "siting answer 2", "rejected 2 line 2"),
    (2, "siting 2", "rejected 2 line 2"),
    (4, "point 3 5 3", "rejected 8 line 22 has 353530 wants 385435"),
    (4, "point 2 6 3", "rejected 8 line 22 has 353530 wants 550138"),
    (4, "point 2 5 4", "rejected 8 line 22 has 353530 wants 550138"),
    (5, "point 4 0 -1", "rejected 8 line 22 has 353530 wants 296738"),
    (5, "point 3 1 -1", "rejected 8 line 22 has 353530 wants 382580"),
    (5, "point 3 0 -2", "rejected 8 line 22 has 353530 wants 117237"),
    (6, "permit 1 0 4 0 0 4", "rejected 14 line 14 has none wants 871437"),
    (6, "permit 0 1 4 0 0 4", "accepted"),
    (6, "permit 0 0 5 0 0 4", "accepted"),
    (6, "permit 0 0 4 1 0 4", "accepted"),
    (6, "permit 0 0 4 0 1 4", "rejected 14 line 14 has none wants -15040"),
    (6, "permit 0 0 4 0 0 5", "accepted"),
    (7, "forbid 2 -50 1 50 -50 0", "accepted"),
    (7, "forbid 1 -51 1 50 -50 0", "accepted"),
    (7, "forbid 1 -50 2 50 -50 0", "accepted"),
    (7, "forbid 1 -50 1 51 -50 0", "accepted"),
    (7, "forbid 1 -50 1 50 -51 0", "accepted"),
    (7, "forbid 1 -50 1 50 -50 1", "accepted"),
    (8, "forbid 2 -50 50 0 1 50", "accepted"),
    (8, "forbid 1 -51 50 0 1 50", "accepted"),
    (8, "forbid 1 -50 51 0 1 50", "accepted"),
    (8, "forbid 1 -50 50 1 1 50", "accepted"),
    (8, "forbid 1 -50 50 0 2 50", "accepted"),
    (8, "forbid 1 -50 50 0 1 51", "accepted"),
    (10, "gap 65537", "accepted"),
    (11, "budget 3", "rejected 13 line 29"),
    (12, "pool 100001", "accepted"),
    (13, "site 0 0", "rejected 1 line 14"),
    (14, "cost 0 0", "rejected 1 line 14"),
    (15, "bound -559941", "rejected 11 line 29 has -559941 wants -559940"),
    (17, "open 1", "rejected 13 line 29"),
    (18, "leases 3", "rejected 13 line 29"),
    (19, "root 1 0 19", "rejected 1 line 19"),
    (19, "root 0 1 19", "rejected 1 line 19"),
    (19, "root 0 0 10", "rejected 1 line 19"),
    (20, "S 0", "rejected 10 line 20"),
    (22, "O 353531", "rejected 8 line 22 has 353531 wants 353530"),
    (22, "B 353530", "rejected 9 line 22"),
    (22, "S -", "rejected 10 line 22"),
    (24, "O -131073", "rejected 8 line 24 has -131073 wants -131072"),
    (27, "O -559941", "rejected 8 line 27 has -559941 wants -559940"),
];

/// A town at an irrational distance from its triangle: with no gap, line 34 of the answer is an
/// unsettled leaf of level 0.
const IRRATIONAL: &str = "siting 1\nkind sum\npoint -1 -1 1\npermit 0 0 1 0 0 1\nend\n";

#[rattlefmt::skip]
const IRRATIONAL_CHANGES: [Change; 13] = [
    (12, "bound 92682", "rejected 11 line 86 has 92682 wants 92681"),
    (13, "answer solved", "rejected 12 line 86"),
    (13, "answer budget", "rejected 12 line 86"),
    (33, "S -", "rejected 10 line 33"),
    (33, "F 92681", "rejected 9 line 33"),
    (34, "F 92681", "accepted"),
    (34, "F 92681\nF 92681", "rejected 8 line 35 has 92681 wants 92682"),
    (34, "F 92682", "rejected 8 line 34 has 92682 wants 92681"),
    (34, "O 92681", "rejected 9 line 34"),
    (34, "B 92681", "rejected 9 line 34"),
    (34, "X", "rejected 7 line 34"),
    (34, "S 92682", "rejected 10 line 34"),
    (35, "F 92682", "rejected 9 line 35"),
];

/// The numbers of the corner's answer at their limits, and one past them.
#[rattlefmt::skip]
const LIMIT_CHANGES: [Change; 30] = [
    (7, "gap 4611686018427387904", "accepted"),
    (7, "gap 4611686018427387905", "rejected 1 line 7"),
    (7, "gap -1", "rejected 1 line 7"),
    (8, "budget 1000000", "accepted"),
    (8, "budget 1000001", "rejected 1 line 8"),
    (9, "pool 1", "accepted"),
    (9, "pool 0", "rejected 1 line 9"),
    (9, "pool 1000000", "accepted"),
    (9, "pool 1000001", "rejected 1 line 9"),
    (10, "site 274877906944 0", "rejected 3 line 10"),
    (10, "site 274877906945 0", "rejected 1 line 10"),
    (10, "site 0 -274877906944", "rejected 3 line 10"),
    (10, "site 0 -274877906945", "rejected 1 line 10"),
    (11, "cost 9223372036854775807 327680", "rejected 4 line 11 has 9223372036854775807 wants 327680"),
    (11, "cost 9223372036854775808 327680", "rejected 1 line 11"),
    (11, "cost 327680 -9223372036854775808", "rejected 4 line 11 has -9223372036854775808 wants 327680"),
    (11, "cost 327680 -9223372036854775809", "rejected 1 line 11"),
    (12, "bound 9223372036854775807", "rejected 11 line 18 has 9223372036854775807 wants 327680"),
    (12, "bound 9223372036854775808", "rejected 1 line 12"),
    (12, "bound -9223372036854775808", "rejected 11 line 18 has -9223372036854775808 wants 327680"),
    (12, "bound -9223372036854775809", "rejected 1 line 12"),
    (14, "open 1000000", "rejected 13 line 18"),
    (14, "open 1000001", "rejected 1 line 14"),
    (15, "leases 2", "accepted"),
    (15, "leases 1000000", "rejected 13 line 18"),
    (15, "leases 1000001", "rejected 1 line 15"),
    (17, "B 9223372036854775807", "rejected 8 line 17 has 9223372036854775807 wants 327680"),
    (17, "B 9223372036854775808", "rejected 1 line 17"),
    (17, "B -9223372036854775808", "rejected 8 line 17 has -9223372036854775808 wants 327680"),
    (17, "B -9223372036854775809", "rejected 1 line 17"),
];

/// The text of these lines.
fn text_of(alloc: Global, lines: &[Line]) -> Result<String, Fail> {
    let mut text = String::new(alloc);
    for (line, _, _) in lines {
        text.push_str(line)?;
        text.push('\n')?;
    }
    Ok(text)
}

/// The line that `check` writes of the text with `instead` in the place of the line of this number.
fn check_with(
    rt: &(impl Threads + Wait + Sync),
    alloc: Global,
    text: &str,
    number: usize,
    instead: &str,
) -> Result<String, Fail> {
    let mut changed = String::new(alloc);
    for (i, line) in text.split_inclusive('\n').enumerate() {
        changed.push_str(if i + 1 == number { instead } else { line })?;
    }
    let (_, sink) = run_words(rt, alloc, "check", changed.as_str())?;
    let written = str::from_utf8(sink.bytes())?;
    let line = written.strip_suffix('\n').ok_or("no line feed")?;
    Ok(String::from_str(alloc, line)?)
}

#[test]
fn a_line_is_missing_or_stands_twice(rt: HostRuntime) -> Result<(), Fail> {
    for lines in [POOL_FULL.as_slice(), NO_SITE.as_slice()] {
        let text = text_of(rt.alloc(), lines)?;
        for (i, (line, missing, twice)) in lines.iter().enumerate() {
            let doubled = format!(in rt.alloc(); "{line}\n{line}\n")?;
            for (instead, wanted) in [("", missing), (doubled.as_str(), twice)] {
                let written = check_with(&rt, rt.alloc(), text.as_str(), i + 1, instead)?;
                assert_eq!(rt; written.as_str(), *wanted, "{line}: {instead}");
            }
        }
    }
    Ok(())
}

#[test]
fn a_line_is_changed(rt: HostRuntime) -> Result<(), Fail> {
    let pool_full = text_of(rt.alloc(), &POOL_FULL)?;
    let no_site = text_of(rt.alloc(), &NO_SITE)?;
    let (_, sink) = run_words(&rt, rt.alloc(), "solve gap=0", IRRATIONAL)?;
    let answers = [
        (pool_full.as_str(), POOL_FULL_CHANGES.as_slice()),
        (no_site.as_str(), NO_SITE_CHANGES.as_slice()),
        (str::from_utf8(sink.bytes())?, IRRATIONAL_CHANGES.as_slice()),
    ];
    for (text, changes) in answers {
        for (number, line, wanted) in changes {
            let instead = format!(in rt.alloc(); "{line}\n")?;
            let written = check_with(&rt, rt.alloc(), text, *number, instead.as_str())?;
            assert_eq!(rt; written.as_str(), *wanted, "line {number}: {line}");
        }
    }
    Ok(())
}

#[test]
fn each_number_at_its_limit(rt: HostRuntime) -> Result<(), Fail> {
    for (number, line, wanted) in LIMIT_CHANGES.as_slice() {
        let instead = format!(in rt.alloc(); "{line}\n")?;
        let written = check_with(&rt, rt.alloc(), CORNER_ANSWER, *number, instead.as_str())?;
        assert_eq!(rt; written.as_str(), *wanted, "line {number}: {line}");
    }
    Ok(())
}
