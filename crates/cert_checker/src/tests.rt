//! Answers that are known to be valid, and faults of texts that are known.

ghost use Rattle.std.specs.Prelude.{◌<◌};

use super::*;
use crate::head::opening_cost;
use answer_model::{Head, Word};
use case_maker::one_town;
use dyadic_square::Square;
use port_io::MemSource;
use site_model::Site;
use siting_definitions::Mark;
use std::alloc::Global;
use std::process::Abort;
use std::test::Fail;

/// An answer whose root is left whole.
const ONE_SQUARE: &[u8] =
    b"siting answer 1\nsiting 1\nkind sum\npoint 0 0 1\npermit 3 4 9 4 3 10\nend\ngap 0\nbudget 100000\npool 100000\nsite 196608 262144\ncost 327680 327680\nbound 327680\nanswer solved\nopen 0\nleases 1\nroot 196608 262144 19\nB 327680\nend\n";

/// The same with another bound in line 17.
const ONE_WRONG_BOUND: &[u8] =
    b"siting answer 1\nsiting 1\nkind sum\npoint 0 0 1\npermit 3 4 9 4 3 10\nend\ngap 0\nbudget 100000\npool 100000\nsite 196608 262144\ncost 327680 327680\nbound 327680\nanswer solved\nopen 0\nleases 1\nroot 196608 262144 19\nB 327681\nend\n";

/// An answer whose root is split.
const FIVE_SQUARES: &[u8] =
    b"siting answer 1\nsiting 1\nkind sum\npoint 2 2 1\npermit 0 0 4 0 4 4 0 4\nend\ngap 185\nbudget 1\npool 100000\nsite 0 0\ncost 185363 185364\nbound 0\nanswer budget\nopen 0\nleases 1\nroot 0 0 19\nS 185364\nO 0\nO 131072\nO 131072\nB 185363\nend\n";

/// A source of a text, in chunks, which fails at this call, counted from 1.
fn source_of(alloc: Global, text: &[u8], chunk: usize, fails: u64) -> Result<MemSource, Fail>
    requires { 0 < chunk }
{
    let bytes = Vec::from_slice(alloc, text)?;
    Ok(MemSource::new(bytes, chunk, Vec::from_slice(alloc, &[fails])?))
}

/// Why the text of a source isn't accepted, if it isn't.
fn refused(alloc: Global, source: &mut MemSource) -> Result<(), CheckError> {
    match check(alloc, source) {
        Ok(_) => Ok(()),
        Err(error) => Err(error),
    }
}

#[test]
fn valid_answers_are_accepted(rt: HostRuntime) -> Result<(), Fail> {
    let cases = [
        (
            ONE_SQUARE,
            Accepted {
                word: Word::Solved,
                best: Some((Site::of(196608, 262144), 327680, 327680)),
                bound: Some(327680),
                nodes: 1,
            },
        ),
        (
            FIVE_SQUARES,
            Accepted {
                word: Word::Budget,
                best: Some((Site::of(0, 0), 185363, 185364)),
                bound: Some(0),
                nodes: 5,
            },
        ),
    ];
    for (text, want) in cases {
        let mut source = source_of(rt.alloc(), text, 7, 0)?;
        assert_eq!(rt; check(rt.alloc(), &mut source), Ok(want));
    }
    Ok(())
}

#[test]
fn the_first_fault_is_found(rt: HostRuntime) -> Result<(), Fail> {
    // The text, and of its first fault the number, the line and the two values.
    let cases: [(&[u8], u8, u64, Option<Differ>); 17] = [
        (
            b"siting answer 1\nsiting 1\nkind sum\npoint 0 0 1\npermit 3 4 3 10 9 4\nend\ngap 0\nbudget 100000\npool 100000\nsite 196608 262144\ncost 327680 327680\nbound 327680\nanswer solved\nopen 0\nleases 1\nroot 196608 262144 19\nB 327680\nend\n",
            2,
            2,
            None,
        ),
        (
            b"siting answer 1\nsiting 1\nkind sum\npoint 0 0 1\npermit 3 4 9 4 3 10\nend\ngap 0\nbudget 100000\npool 100000\nsite 0 0\ncost 327680 327680\nbound 327680\nanswer solved\nopen 0\nleases 1\nroot 196608 262144 19\nB 327680\nend\n",
            3,
            10,
            None,
        ),
        (
            b"siting answer 1\nsiting 1\nkind sum\npoint 0 0 1\npermit 3 4 9 4 3 10\nend\ngap 0\nbudget 100000\npool 100000\nsite 196608 262144\ncost 327680 327680\nbound 327681\nanswer solved\nopen 0\nleases 1\nroot 196608 262144 19\nB 327680\nend\n",
            11,
            18,
            Some(Differ {
                has: Some(327681),
                wants: Some(327680),
            }),
        ),
        (
            b"siting answer 1\nsiting 1\nkind sum\npoint 0 0 1\npermit 3 4 9 4 3 10\nend\ngap 0\nbudget 100000\npool 100000\nsite 196608 262144\ncost 327680 327680\nbound 327680\nanswer solved\nopen 0\nleases 1\nroot 196608 262144 19\nB 327681\nend\n",
            8,
            17,
            Some(Differ {
                has: Some(327681),
                wants: Some(327680),
            }),
        ),
        (
            b"siting answer 1\nsiting 1\nkind sum\npoint 0 0 1\npermit 3 4 9 4 3 10\nend\ngap 0\nbudget 100000\npool 100000\nsite 196608 262144\ncost 327680 327680\nbound 327680\nanswer solved\nopen 0\nleases 1\nroot 196608 262144 19\nend\n",
            5,
            17,
            None,
        ),
        (
            b"siting answer 1\nsiting 1\nkind sum\npoint 0 0 1\npermit 3 4 9 4 3 10\nend\ngap 0\nbudget 100000\npool 100000\nsite 196608 262144\ncost 327680 327680\nbound 327680\nanswer solved\nopen 0\nleases 1\nroot 196608 262144 19\nB 327680\nB 327680\nend\n",
            6,
            18,
            None,
        ),
        (
            b"siting answer 1\nsiting 1\nkind sum\npoint 0 0 1\npermit 3 4 9 4 3 10\nend\ngap 0\nbudget 100000\npool 100000\nsite 196608 262144\ncost 327680 327680\nbound 327680\nanswer solved\nopen 0\nleases 1\nroot 196608 262144 19\nB 327680\nend\nend\n",
            1,
            19,
            None,
        ),
        (
            b"siting answer 1\nsiting 1\nkind sum\npoint 2 2 1\npermit 0 0 4 0 4 4 0 4\nend\ngap 185\nbudget 1\npool 100000\nsite 0 0\ncost 185363 185364\nbound 0\nanswer budget\nopen 0\nleases 1\nroot 0 0 19\nS 185364\nO 9223372036854775808\nO 131072\nO 131072\nB 185363\nend\n",
            1,
            18,
            None,
        ),
        (
            b"siting answer 1\nsiting 1\nkind sum\npoint 2 2 1\npermit 0 0 4 0 4 4 0 4\nend\ngap 185\nbudget 1\npool 100000\nsite 0 0\ncost 185363 185364\nbound 0\nanswer budget\nopen 0\nleases 0\nroot 0 0 19\nS 185364\nO 0\nO 131072\nO 131072\nB 185363\nend\n",
            13,
            22,
            None,
        ),
        (
            b"siting answer 1\nsiting 1\nkind sum\npoint 2 2 1\npermit 0 0 4 0 4 4 0 4\nend\ngap 185\nbudget 1\npool 100000\nsite 0 0\ncost 185363 185365\nbound 0\nanswer budget\nopen 0\nleases 1\nroot 0 0 19\nS 185364\nO 0\nO 131072\nO 131072\nB 185363\nend\n",
            4,
            11,
            Some(Differ {
                has: Some(185365),
                wants: Some(185364),
            }),
        ),
        (
            b"siting answer 1\nsiting 1\nkind sum\npoint 2 2 1\npermit 0 0 4 0 4 4 0 4\nend\ngap 185\nbudget 1\npool 100000\nsite 0 0\ncost 185363 185364\nbound 0\nanswer budget\nopen 0\nleases 1\nroot 0 0 19\nS 185364\nO 00\nO 131072\nO 131072\nB 185363\nend\n",
            1,
            18,
            None,
        ),
        (
            b"siting answer 1\nsiting 1\nkind sum\npoint 2 2 1\npermit 0 0 4 0 4 4 0 4\nend\ngap 185\nbudget 1\npool 100000\nsite 0 0\ncost 185363 185364\nbound 0\nanswer budget\nopen 0\nleases 1\nroot 0 0 19\nS 185364\nO 0\nO 131072\nO 131072\nO 185363\nend\n",
            9,
            21,
            None,
        ),
        (
            b"siting answer 1\nsiting 1\nkind sum\npoint 2 2 1\npermit 0 0 4 0 4 4 0 4\nend\ngap 185\nbudget 1\npool 100000\nsite 0 0\ncost 185363 185364\nbound 0\nanswer budget\nopen 0\nleases 1\nroot 0 0 19\nS 185365\nO 0\nO 131072\nO 131072\nB 185363\nend\n",
            10,
            17,
            None,
        ),
        (
            b"siting answer 1\nsiting 1\nkind sum\npoint 2 2 1\npermit 0 0 4 0 4 4 0 4\nend\ngap 185\nbudget 1\npool 100000\nsite 0 0\ncost 185363 185364\nbound 0\nanswer budget\nopen 0\nleases 1\nroot 0 0 19\nS -\nO 0\nO 131072\nO 131072\nB 185363\nend\n",
            10,
            17,
            None,
        ),
        (
            b"siting answer 1\nsiting 1\nkind sum\npoint 2 2 1\npermit 0 0 4 0 4 4 0 4\nend\ngap 185\nbudget 1\npool 100000\nsite none\ncost none\nbound 0\nanswer budget\nopen 0\nleases 1\nroot 0 0 19\nS 185364\nO 0\nO 131072\nO 131072\nB 185363\nend\n",
            14,
            11,
            Some(Differ {
                has: None,
                wants: Some(185364),
            }),
        ),
        (
            b"siting answer 1\nsiting 1\nkind sum\npoint 2 2 1\npermit 0 0 4 0 4 4 0 4\nend\ngap 185\nbudget 1\npool 100000\nsite 0 0\ncost 185363 185364\nbound 0\nanswer solved\nopen 0\nleases 1\nroot 0 0 19\nS 185364\nO 0\nO 131072\nO 131072\nB 185363\nend\n",
            12,
            22,
            None,
        ),
        (
            b"siting answer 1\nsiting 1\nkind sum\npoint 2 2 1\npermit 0 0 4 0 4 4 0 4\nend\ngap 185\nbudget 1\npool 100000\nsite 0 0\ncost 185363 185364\nbound 0\nanswer budget\nopen 0\nleases 1\nroot 0 0 19\nS 185364\nX\nO 131072\nO 131072\nB 185363\nend\n",
            7,
            18,
            None,
        ),
    ];
    for (text, number, line, differ) in cases {
        let want = CheckFault {
            number,
            line,
            differ,
        };
        for chunk in [1, 5000] {
            let mut source = source_of(rt.alloc(), text, chunk, 0)?;
            assert_eq!(rt;
                refused(rt.alloc(), &mut source),
                Err(CheckError::Fault(want))
            );
        }
    }
    Ok(())
}

#[test]
fn cut_texts_lack_a_line(rt: HostRuntime) -> Result<(), Fail> {
    // How many bytes of the first text are left, and the line that is missing.
    for (left, line) in [
        (0, 1),
        (15, 1),
        (16, 2),
        (40, 4),
        (70, 7),
        (213, 17),
        (214, 18),
        (217, 18),
    ] {
        let mut bytes = Vec::from_slice(rt.alloc(), ONE_SQUARE)?;
        bytes.truncate(left);
        let mut source = MemSource::new(bytes, 7, Vec::new(rt.alloc()));
        let wants = CheckFault {
            number: 1,
            line,
            differ: None,
        };
        assert_eq!(rt;
            refused(rt.alloc(), &mut source),
            Err(CheckError::Fault(wants))
        );
    }
    Ok(())
}

#[test]
fn a_fault_comes_before_a_later_one_of_the_source(rt: HostRuntime) -> Result<(), Fail> {
    let wants = CheckFault {
        number: 8,
        line: 17,
        differ: Some(Differ {
            has: Some(327681),
            wants: Some(327680),
        }),
    };
    // Each call gives one byte. The line with the fault ends four bytes before the end of the text.
    let feed = ONE_WRONG_BOUND.len() as u64 - 4;
    // A valid answer is accepted only once the source has said that it ends.
    let end = ONE_SQUARE.len() as u64 + 1;
    let cases = [
        (ONE_WRONG_BOUND, feed + 1, CheckError::Fault(wants)),
        (ONE_WRONG_BOUND, feed, CheckError::ReadFault),
        (ONE_WRONG_BOUND, 1, CheckError::ReadFault),
        (ONE_SQUARE, end, CheckError::ReadFault),
    ];
    for (text, fails, want) in cases {
        let mut source = source_of(rt.alloc(), text, 1, fails)?;
        assert_eq!(rt; refused(rt.alloc(), &mut source), Err(want));
    }
    Ok(())
}

#[test]
fn a_walk_goes_in_preorder(rt: HostRuntime) {
    let mut walk = Walk::begin(Square::of(0, 0, 2));
    // Each square with whether it is split.
    let squares = [
        (Square::of(0, 0, 2), true),
        (Square::of(0, 0, 1), false),
        (Square::of(2, 0, 1), true),
        (Square::of(2, 0, 0), false),
        (Square::of(3, 0, 0), false),
        (Square::of(2, 1, 0), false),
        (Square::of(3, 1, 0), false),
        (Square::of(0, 2, 1), false),
        (Square::of(2, 2, 1), false),
    ];
    for (square, split) in squares {
        assert_eq!(rt; walk.coming(), Some(square));
        if let Some(next) = walk.coming() {
            if next.level > 0 || !split {
                walk.step(split);
            }
        }
    }
    assert_eq!(rt; walk.coming(), None);
}

/// The head of an answer whose root is left open.
fn head(rt: &impl Abort, alloc: Global) -> Head {
    Head {
        instance: one_town(alloc).expect(rt, "memory"),
        gap: 185,
        budget: 0,
        pool: 100_000,
        site: Some(Site::of(0, 0)),
        cost: Some((185_363, 185_364)),
        bound: Some(0),
        word: Word::Budget,
        open_count: 0,
        leases: 0,
    }
}

#[test]
#[tactic(auto, unfolding(siting_definitions::specs::Marks::tally_of))]
fn the_parts_of_a_check(rt: HostRuntime) {
    let head = head(&rt, rt.alloc());
    let root = head.instance.root();
    assert_eq!(rt; head_fault(&head), None);
    assert_eq!(rt; opening_or_fault(&head), Ok(Some(185_364)));
    let opening = opening_cost(&head.instance);
    assert_eq!(rt; opening, Some(185_364));
    let mark = Mark::Left(0);
    assert_eq!(rt; mark_fault(&head, opening, root, mark, 17), None);
    let mut tally = Tally::new();
    tally.add(mark);
    assert_eq!(rt; end_fault(&head, &tally, 18), None);
    let mut walk = Walk::begin(root);
    let short = CheckFault {
        number: 5,
        line: 18,
        differ: None,
    };
    assert_eq!(rt; last_fault(&head, &walk, &tally, 18), Some(short));
    walk.step(false);
    assert_eq!(rt; last_fault(&head, &walk, &tally, 18), None);
    let accepted = Accepted {
        word: Word::Budget,
        best: Some((Site::of(0, 0), 185_363, 185_364)),
        bound: Some(0),
        nodes: 1,
    };
    assert_eq!(rt; accepted_of(&head, &tally), accepted);
}
