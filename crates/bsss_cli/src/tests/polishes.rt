//! Polishes of answers.

use super::{LONE_TOWN, NOWHERE, OFF_THE_GRID, TEN_TOWNS, run_words, sink_of, source_of, words_of};
use crate::{OpenGate, Status, run};
use std::test::Fail;

/// Two towns, and a square between them in which nearly all sites cost the same.
const TWO_TOWNS: &str =
    "siting 1\nkind sum\npoint -99 1 1\npoint 101 1 1\npermit -1 -1 1 -1 1 1 -1 1\nend\n";

#[test]
fn each_answer_is_polished(rt: HostRuntime) -> Result<(), Fail> {
    // The instance, the words that solve it, and what its polished answer says.
    let cases = [
        (
            TWO_TOWNS,
            "solve budget=0",
            "bound 12845056\npolished 13107200\n",
        ),
        (TWO_TOWNS, "solve", "bound 13099008\npolished 13107187\n"),
        (NOWHERE, "solve", "bound none\npolished none\n"),
        (
            TEN_TOWNS,
            "solve",
            "bound 1053685754151459\npolished 1054337827711000\n",
        ),
        // The town is at the centre of a leaf.
        (LONE_TOWN, "solve", "bound 0\npolished 0\n"),
        (LONE_TOWN, "solve budget=1", "bound 0\npolished 0\n"),
        // Leaves of level 0.
        (OFF_THE_GRID, "solve", "bound 30892\npolished 30892\n"),
        // All points have cutoffs.
        (
            "siting 2\nkind sum\npoint 2 2 1 1\npermit 0 0 4 0 4 4 0 4\nend\n",
            "solve budget=0",
            "bound 0\npolished 0\n",
        ),
        // All points repel: with cutoffs, without, and at the limits, in a square of level 37.
        (
            "siting 2\nkind sum\npoint 0 0 -1 1\npermit -1 -1 1 -1 1 1 -1 1\nend\n",
            "solve gap=0",
            "bound -65536\npolished -65536\n",
        ),
        (
            "siting 1\nkind sum\npoint 0 0 -1\npermit -1 -1 1 -1 1 1 -1 1\nend\n",
            "solve",
            "bound -92773\npolished -92773\n",
        ),
        (
            "siting 1\nkind sum\npoint -1000000 -1000000 -16000000\n\
            permit -1000000 -1000000 1000000 -1000000 1000000 1000000 -1000000 1000000\nend\n",
            "solve budget=0",
            "bound -3109888511975475098\npolished -3109888511975475098\n",
        ),
        // The greatest term.
        (
            "siting 1\nkind max\npoint 0 0 -1\npoint 4 0 -1\npermit 0 0 4 0 4 4 0 4\nend\n",
            "solve budget=0",
            "bound -586172\npolished -586172\n",
        ),
    ];
    for (instance, line, wanted) in cases {
        let (_, answer) = run_words(&rt, rt.alloc(), line, instance)?;
        let answer = str::from_utf8(answer.bytes())?;
        for _ in 0..2 {
            let (code, sink) = run_words(&rt, rt.alloc(), "polish", answer)?;
            assert_eq!(rt; code, 0, "{instance}");
            assert_eq!(rt; sink.bytes(), wanted.as_bytes(), "{instance}");
        }
    }
    Ok(())
}

#[test]
fn a_failing_source_and_a_failing_sink_of_a_polish(rt: HostRuntime) -> Result<(), Fail> {
    let (_, answer) = run_words(&rt, rt.alloc(), "solve", LONE_TOWN)?;
    let answer = str::from_utf8(answer.bytes())?;
    // The call that fails of the source, that of the sink, the status, and what is written.
    let cases = [
        (2, 0, Status::ReadFault, ""),
        (0, 2, Status::WriteFault, "bound 0\npo"),
        (0, 0, Status::Polished, "bound 0\npolished 0\n"),
    ];
    for (read, write, wanted, text) in cases {
        let words = words_of(rt.alloc(), "polish")?;
        let mut source = source_of(rt.alloc(), answer, read)?;
        let mut sink = sink_of(rt.alloc(), 10, write)?;
        let status = run(&rt, rt.alloc(), &words, &mut source, &mut sink, &OpenGate);
        assert_eq!(rt; status, wanted);
        assert_eq!(rt; sink.bytes(), text.as_bytes());
    }
    Ok(())
}
