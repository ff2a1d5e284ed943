//! Solves, by their answers.

use super::{CORNER, CORNER_ANSWER, LONE_TOWN, NOWHERE, OFF_THE_GRID, TEN_TOWNS, run_words};
use std::test::Fail;

#[test]
fn each_solve_writes_its_answer(rt: HostRuntime) -> Result<(), Fail> {
    // The words, the canonical text of the instance, the code, and the answer from its gap on.
    let cases: [(&str, &str, u8, &str); 13] = [
        (
            "solve gap=0",
            CORNER,
            0,
            "gap 0\nbudget 100000\npool 100000\nsite 196608 262144\ncost 327680 327680\n\
            bound 327680\nanswer solved\nopen 0\nleases 1\nroot 196608 262144 19\nB 327680\nend\n",
        ),
        (
            "solve budget=0",
            LONE_TOWN,
            11,
            "gap 185\nbudget 0\npool 100000\nsite 0 0\ncost 185363 185364\nbound 0\n\
            answer budget\nopen 0\nleases 0\nroot 0 0 19\nO 0\nend\n",
        ),
        (
            "solve pool=1 budget=10",
            LONE_TOWN,
            10,
            "gap 185\nbudget 10\npool 1\nsite 0 0\ncost 185363 185364\nbound 0\n\
            answer pool_full\nopen 1\nleases 1\nroot 0 0 19\nO 0\nend\n",
        ),
        (
            "solve pool=3 budget=10",
            LONE_TOWN,
            10,
            "gap 185\nbudget 10\npool 3\nsite 0 0\ncost 185363 185364\nbound 0\n\
            answer pool_full\nopen 1\nleases 1\nroot 0 0 19\nO 0\nend\n",
        ),
        (
            "solve pool=4 budget=1",
            LONE_TOWN,
            11,
            "gap 185\nbudget 1\npool 4\nsite 0 0\ncost 185363 185364\nbound 0\nanswer budget\n\
            open 0\nleases 1\nroot 0 0 19\nS 185364\nO 0\nO 131072\nO 131072\nB 185363\nend\n",
        ),
        (
            "solve",
            NOWHERE,
            13,
            "gap 65536\nbudget 100000\npool 100000\nsite none\ncost none\nbound none\n\
            answer empty\nopen 0\nleases 1\nroot 0 0 18\nX\nend\n",
        ),
        (
            "solve budget=0",
            "siting 1\nkind sum\npoint 2 2 1\npermit 0 0 4 0 4 4 0 4\nforbid 0 0 4 0 4 4 0 4\n\
            end\n",
            11,
            "gap 185\nbudget 0\npool 100000\nsite 0 0\ncost 185363 185364\nbound 0\n\
            answer budget\nopen 0\nleases 0\nroot 0 0 19\nO 0\nend\n",
        ),
        (
            "solve budget=0",
            "siting 1\nkind max\npoint 0 0 -1\npoint 4 0 -1\npermit 0 0 4 0 4 4 0 4\nend\n",
            11,
            "gap 262\nbudget 0\npool 100000\nsite 262144 262144\ncost -262144 -262144\n\
            bound -586172\nanswer budget\nopen 0\nleases 0\nroot 0 0 19\nO -586172\nend\n",
        ),
        (
            "solve budget=0",
            "siting 1\nkind sum\npoint 5 5 3\npoint 5 5 -3\npermit 0 0 4 0 4 4 0 4\nend\n",
            11,
            "gap 0\nbudget 0\npool 100000\nsite 0 0\ncost -1 1\nbound -1390229\nanswer budget\n\
            open 0\nleases 0\nroot 0 0 19\nO -1390229\nend\n",
        ),
        (
            "solve budget=0",
            "siting 1\nkind sum\npoint -1000000 -1000000 -16000000\n\
            permit -1000000 -1000000 1000000 -1000000 1000000 1000000 -1000000 1000000\nend\n",
            11,
            "gap 2965820800757860\nbudget 0\npool 100000\nsite 65536000000 65536000000\n\
            cost -2965820800757861084 -2965820800757860839\nbound -3109888511975475098\n\
            answer budget\nopen 0\nleases 0\nroot -65536000000 -65536000000 37\n\
            O -3109888511975475098\nend\n",
        ),
        (
            "solve budget=1",
            LONE_TOWN,
            11,
            "gap 185\nbudget 1\npool 100000\nsite 0 0\ncost 185363 185364\nbound 0\n\
            answer budget\nopen 0\nleases 1\nroot 0 0 19\nS 185364\nO 0\nO 131072\nO 131072\n\
            B 185363\nend\n",
        ),
        (
            "solve budget=0",
            "siting 2\nkind sum\npoint 2 2 1 1\npermit 0 0 4 0 4 4 0 4\nend\n",
            11,
            "gap 65\nbudget 0\npool 100000\nsite 0 0\ncost 65536 65536\nbound 0\nanswer budget\n\
            open 0\nleases 0\nroot 0 0 19\nO 0\nend\n",
        ),
        (
            "solve gap=0",
            "siting 2\nkind sum\npoint 0 0 -1 1\npermit -1 -1 1 -1 1 1 -1 1\nend\n",
            0,
            "gap 0\nbudget 100000\npool 100000\nsite -65536 -65536\ncost -65536 -65536\n\
            bound -65536\nanswer solved\nopen 0\nleases 1\nroot -65536 -65536 18\nB -65536\nend\n",
        ),
    ];
    for (line, instance, code, tail) in cases {
        let (ended, sink) = run_words(&rt, rt.alloc(), line, instance)?;
        assert_eq!(rt; ended, code, "{line}");
        let version = if instance.starts_with("siting 2") {
            "2\n"
        } else {
            "1\n"
        };
        let mut wanted = Vec::from_slice(rt.alloc(), b"siting answer ")?;
        for part in [version, instance, tail] {
            wanted.extend_from_slice(part.as_bytes())?;
        }
        assert_eq!(rt; sink.bytes(), wanted.as_slice(), "{line}");
    }
    Ok(())
}

#[test]
fn one_instance_has_many_texts(rt: HostRuntime) -> Result<(), Fail> {
    let texts = [
        "# a comment\n\nsiting\t1\r\nkind\tsum\r\npoint\t0\t0\t1\r\n\
        permit\t+03\t4\t9\t4\t+03\t10\r\nend\r\n# after\n",
        "siting 2\nkind sum\npoint 0 0 1\npermit 3 4 9 4 3 10\nend\n",
        "siting 1\nkind sum\npoint 0 0 1\npermit 3 4 3 10 9 4\nend",
    ];
    for text in texts {
        let (code, sink) = run_words(&rt, rt.alloc(), "solve gap=0", text)?;
        assert_eq!(rt; code, 0);
        assert_eq!(rt; sink.bytes(), CORNER_ANSWER.as_bytes());
    }
    Ok(())
}

/// How many lines of a text begin so.
fn count_lines(text: &[u8], start: &[u8]) -> usize {
    text.split(|b| *b == b'\n')
        .filter(|line| line.starts_with(start))
        .count()
}

#[test]
fn a_point_off_the_grid_ends_at_the_floor(rt: HostRuntime) -> Result<(), Fail> {
    let (code, sink) = run_words(&rt, rt.alloc(), "solve", OFF_THE_GRID)?;
    assert_eq!(rt; code, 12);
    let lines: [(&[u8], usize); 9] = [
        (b"site none", 1),
        (b"bound 30892", 1),
        (b"leases 310", 1),
        (b"S -", 76),
        (b"X", 224),
        (b"F 30892", 2),
        (b"F 30893", 2),
        (b"F 30894", 1),
        (b"S", 76),
    ];
    for (start, count) in lines {
        assert_eq!(rt; count_lines(sink.bytes(), start), count);
    }
    Ok(())
}

#[test]
fn a_repelling_town_is_left_as_far_as_can_be(rt: HostRuntime) -> Result<(), Fail> {
    let instance = "siting 1\nkind sum\npoint 0 0 -1\npermit -1 -1 1 -1 1 1 -1 1\nend\n";
    let (code, sink) = run_words(&rt, rt.alloc(), "solve", instance)?;
    assert_eq!(rt; code, 0);
    let lines: [&[u8]; 7] = [
        b"gap 92",
        b"site -65536 -65536",
        b"cost -92682 -92681",
        b"bound -92773",
        b"answer solved",
        b"open 0",
        b"root -65536 -65536 18",
    ];
    for line in lines {
        assert_eq!(rt; count_lines(sink.bytes(), line), 1);
    }
    Ok(())
}

#[test]
fn ten_towns_are_solved(rt: HostRuntime) -> Result<(), Fail> {
    let (code, sink) = run_words(&rt, rt.alloc(), "solve", TEN_TOWNS)?;
    assert_eq!(rt; code, 0);
    assert_eq!(rt; count_lines(sink.bytes(), b"answer solved"), 1);
    let (unsolved, sink) = run_words(&rt, rt.alloc(), "solve budget=0", TEN_TOWNS)?;
    assert_eq!(rt; unsolved, 11);
    assert_eq!(rt; count_lines(sink.bytes(), b"O "), 1);
    Ok(())
}
