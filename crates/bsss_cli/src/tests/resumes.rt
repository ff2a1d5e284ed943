//! Answers from which a search goes on.

use super::{CORNER_ANSWER, ONE_LEASE_ANSWER, run_words, sink_of, source_of, words_of};
use crate::{OpenGate, Status, run};
use std::test::Fail;

/// The answer to a town in the middle of a square, for which the pool had no room to split it.
const POOL_FULL_ANSWER: &str =
    "siting answer 1\nsiting 1\nkind sum\npoint 2 2 1\npermit 0 0 4 0 4 4 0 4\nend\ngap 185\n\
    budget 10\npool 1\nsite 0 0\ncost 185363 185364\nbound 0\nanswer pool_full\nopen 1\n\
    leases 1\nroot 0 0 19\nO 0\nend\n";

/// The answer to an instance in which nothing is permitted.
const EMPTY_ANSWER: &str =
    "siting answer 1\nsiting 1\nkind sum\npoint 0 0 1\npermit 0 0 2 0 2 2 0 2\n\
    forbid -10 -10 10 -10 10 10 -10 10\nend\ngap 65536\nbudget 100000\npool 100000\n\
    site none\ncost none\nbound none\nanswer empty\nopen 0\nleases 1\nroot 0 0 18\nX\nend\n";

#[test]
fn each_answer_goes_on(rt: HostRuntime) -> Result<(), Fail> {
    // The words, the answer that is read, the code, and the answer that is written.
    let cases = [
        ("resume budget=1", ONE_LEASE_ANSWER, 11, ONE_LEASE_ANSWER),
        (
            "resume budget=1 workers=2",
            ONE_LEASE_ANSWER,
            11,
            ONE_LEASE_ANSWER,
        ),
        (
            "resume budget=2",
            ONE_LEASE_ANSWER,
            0,
            "siting answer 1\nsiting 1\nkind sum\npoint 2 2 1\npermit 0 0 4 0 4 4 0 4\nend\n\
            gap 185\nbudget 2\npool 100000\nsite 131072 131072\ncost 0 0\nbound 0\n\
            answer solved\nopen 0\nleases 2\nroot 0 0 19\nS 185364\nB 0\nB 131072\nB 131072\n\
            B 185363\nend\n",
        ),
        (
            "resume budget=5",
            CORNER_ANSWER,
            0,
            "siting answer 1\nsiting 1\nkind sum\npoint 0 0 1\npermit 3 4 9 4 3 10\nend\ngap 0\n\
            budget 5\npool 100000\nsite 196608 262144\ncost 327680 327680\nbound 327680\n\
            answer solved\nopen 0\nleases 0\nroot 196608 262144 19\nB 327680\nend\n",
        ),
        (
            "resume budget=1 pool=4",
            POOL_FULL_ANSWER,
            11,
            "siting answer 1\nsiting 1\nkind sum\npoint 2 2 1\npermit 0 0 4 0 4 4 0 4\nend\n\
            gap 185\nbudget 1\npool 4\nsite 0 0\ncost 185363 185364\nbound 0\nanswer budget\n\
            open 0\nleases 1\nroot 0 0 19\nS 185364\nO 0\nO 131072\nO 131072\nB 185363\nend\n",
        ),
        (
            "resume budget=0",
            EMPTY_ANSWER,
            13,
            "siting answer 1\nsiting 1\nkind sum\npoint 0 0 1\npermit 0 0 2 0 2 2 0 2\n\
            forbid -10 -10 10 -10 10 10 -10 10\nend\ngap 65536\nbudget 0\npool 100000\n\
            site none\ncost none\nbound none\nanswer empty\nopen 0\nleases 0\nroot 0 0 18\nX\n\
            end\n",
        ),
    ];
    for (line, before, code, after) in cases {
        let (ended, sink) = run_words(&rt, rt.alloc(), line, before)?;
        assert_eq!(rt; ended, code, "{line}");
        assert_eq!(rt; sink.bytes(), after.as_bytes(), "{line}");
    }
    Ok(())
}

#[test]
fn an_answer_goes_on_four_times(rt: HostRuntime) -> Result<(), Fail> {
    let mut answer = String::from_str(rt.alloc(), ONE_LEASE_ANSWER)?;
    // The words, the code, and a line of the answer.
    let steps = [
        ("resume budget=1", 11, "\nleases 1\n"),
        ("resume budget=2", 0, "\nleases 2\n"),
        ("resume budget=3", 0, "\nleases 1\n"),
        ("resume budget=10", 0, "\nleases 1\n"),
    ];
    for (line, code, leases) in steps {
        let (ended, sink) = run_words(&rt, rt.alloc(), line, answer.as_str())?;
        assert_eq!(rt; ended, code, "{line}");
        answer = String::from_str(rt.alloc(), str::from_utf8(sink.bytes())?)?;
        assert!(rt; answer.as_str().contains(leases), "{line}");
        let (checked, _) = run_words(&rt, rt.alloc(), "check", answer.as_str())?;
        assert_eq!(rt; checked, 0, "{line}");
    }
    Ok(())
}

#[test]
fn each_answer_that_does_not_go_on_has_its_text(rt: HostRuntime) -> Result<(), Fail> {
    let surplus = format!(in rt.alloc(); "{ONE_LEASE_ANSWER}\n")?;
    let cut = ONE_LEASE_ANSWER
        .strip_suffix("end\n")
        .ok_or("no last line")?;
    let cases = [
        (
            "resume budget=0",
            ONE_LEASE_ANSWER,
            14,
            "small budget has 0 wants 1\n",
        ),
        (
            "resume budget=1 pool=2",
            ONE_LEASE_ANSWER,
            15,
            "small pool has 2 wants 3\n",
        ),
        (
            "resume budget=0 pool=2 workers=2",
            ONE_LEASE_ANSWER,
            14,
            "small budget has 0 wants 1\n",
        ),
        ("resume budget=1", cut, 5, "rejected 1 line 22\n"),
        (
            "resume budget=1",
            surplus.as_str(),
            5,
            "rejected 1 line 23\n",
        ),
        ("resume budget=1 workers=2", "", 5, "rejected 1 line 1\n"),
        ("resume", ONE_LEASE_ANSWER, 2, "bad words\n"),
        ("resume budget=1 gap=0", ONE_LEASE_ANSWER, 2, "bad words\n"),
        ("resume budget=1000001", ONE_LEASE_ANSWER, 2, "bad words\n"),
        (
            "resume budget=1 budget=2",
            ONE_LEASE_ANSWER,
            2,
            "bad words\n",
        ),
    ];
    for (line, before, code, text) in cases {
        let (ended, sink) = run_words(&rt, rt.alloc(), line, before)?;
        assert_eq!(rt; ended, code, "{line}");
        assert_eq!(rt; sink.bytes(), text.as_bytes(), "{line}");
    }
    Ok(())
}

#[test]
fn a_failure_of_the_source_comes_before_each_fault(rt: HostRuntime) -> Result<(), Fail> {
    // The first line is a fault, and the second read fails.
    let text = ONE_LEASE_ANSWER
        .strip_prefix("siting ")
        .ok_or("no first line")?;
    for line in ["resume budget=1", "resume budget=1 workers=2"] {
        let words = words_of(rt.alloc(), line)?;
        let mut source = source_of(rt.alloc(), text, 2)?;
        let mut sink = sink_of(rt.alloc(), 64, 0)?;
        let status = run(&rt, rt.alloc(), &words, &mut source, &mut sink, &OpenGate);
        assert_eq!(rt; status, Status::ReadFault, "{line}");
        assert!(rt; sink.bytes().is_empty(), "{line}");
    }
    Ok(())
}
