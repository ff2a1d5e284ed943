//! Near sets of answers.

use super::{CORNER, LONE_TOWN, NOWHERE, run_words};
use std::test::Fail;

#[test]
fn each_near_set_is_listed(rt: HostRuntime) -> Result<(), Fail> {
    // The instance, the words that solve it, those of the near set, the code, and what is written.
    let cases = [
        (
            CORNER,
            "solve gap=0",
            "near depth=1",
            0,
            "near 327680 18\nsquare 196608 262144\ncount 1\nend\n",
        ),
        (
            CORNER,
            "solve gap=0",
            "near depth=1 limit=1",
            0,
            "near 327680 18\nsquare 196608 262144\ncount 1\nend\n",
        ),
        (
            CORNER,
            "solve gap=0",
            "near slack=1152921504606846976 depth=1 limit=1",
            17,
            "too many above 1\n",
        ),
        (
            CORNER,
            "solve gap=0",
            "near slack=1152921504606846976 depth=1 limit=2",
            17,
            "too many above 2\n",
        ),
        (
            CORNER,
            "solve gap=0",
            "near limit=3 depth=1 slack=1152921504606846976",
            0,
            "near 1152921504607174656 18\nsquare 196608 262144\nsquare 458752 262144\n\
            square 196608 524288\ncount 3\nend\n",
        ),
        (
            CORNER,
            "solve gap=0",
            "near slack=1152921504606846976 depth=0",
            0,
            "near 1152921504607174656 19\nsquare 196608 262144\ncount 1\nend\n",
        ),
        (
            LONE_TOWN,
            "solve",
            "near depth=16",
            0,
            "near 0 3\nsquare 131064 131064\nsquare 131072 131064\nsquare 131064 131072\n\
            square 131072 131072\ncount 4\nend\n",
        ),
        (
            LONE_TOWN,
            "solve",
            "near",
            0,
            "near 0 11\nsquare 129024 129024\nsquare 131072 129024\nsquare 129024 131072\n\
            square 131072 131072\ncount 4\nend\n",
        ),
        (NOWHERE, "solve", "near", 16, "no site\n"),
        (NOWHERE, "solve", "near slack=5 limit=1", 16, "no site\n"),
    ];
    for (instance, solve, near, code, wanted) in cases {
        let (_, answer) = run_words(&rt, rt.alloc(), solve, instance)?;
        let answer = str::from_utf8(answer.bytes())?;
        let (ended, sink) = run_words(&rt, rt.alloc(), near, answer)?;
        assert_eq!(rt; ended, code, "{near}");
        assert_eq!(rt; sink.bytes(), wanted.as_bytes(), "{near}");
    }
    Ok(())
}

#[test]
fn the_near_sets_of_two_hundred_points(rt: HostRuntime) -> Result<(), Fail> {
    let (_, made) = run_words(&rt, rt.alloc(), "make seed=7 points=200", "")?;
    let (_, answer) = run_words(&rt, rt.alloc(), "solve", str::from_utf8(made.bytes())?)?;
    let answer = str::from_utf8(answer.bytes())?;
    // The words, the code, and how what is written begins and ends.
    let cases: [(&str, u8, &[u8], &[u8]); 5] = [
        (
            "near",
            0,
            b"near 233220297514380 25\n",
            b"\ncount 101\nend\n",
        ),
        (
            "near limit=101",
            0,
            b"near 233220297514380 25\n",
            b"\ncount 101\nend\n",
        ),
        ("near limit=100", 17, b"too many above 100\n", b""),
        (
            "near depth=14",
            0,
            b"near 233220297514380 19\n",
            b"\ncount 835\nend\n",
        ),
        (
            "near slack=2332202975143",
            0,
            b"near 235552500489523 25\n",
            b"\ncount 341\nend\n",
        ),
    ];
    for (line, code, start, end) in cases {
        let (ended, sink) = run_words(&rt, rt.alloc(), line, answer)?;
        assert_eq!(rt; ended, code, "{line}");
        assert!(rt; sink.bytes().starts_with(start), "{line}");
        assert!(rt; sink.bytes().ends_with(end), "{line}");
    }
    Ok(())
}
