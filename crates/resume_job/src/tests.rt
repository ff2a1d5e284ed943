//! Answers that are loaded and reopened, and texts and sizes that are refused.

ghost use Rattle.std.specs.Prelude.{◌≤◌};

use super::*;
use answer_model::Head;
use cert_checker::{CheckFault, FORM};
use discard_log::{Mark, NodeList};
use dyadic_square::Square;
use port_io::MemSource;
use site_model::Site;
use std::alloc::Global;
use std::process::Abort;

/// An answer that was stopped at its budget, after one split.
const ONE_SPLIT: &[u8] =
    b"siting answer 1\nsiting 1\nkind sum\npoint 2 2 1\npermit 0 0 4 0 4 4 0 4\nend\ngap 185\nbudget 1\npool 100000\nsite 0 0\ncost 185363 185364\nbound 0\nanswer budget\nopen 0\nleases 1\nroot 0 0 19\nS 185364\nO 0\nO 131072\nO 131072\nB 185363\nend\n";

/// The same without its last line.
const CUT: &[u8] =
    b"siting answer 1\nsiting 1\nkind sum\npoint 2 2 1\npermit 0 0 4 0 4 4 0 4\nend\ngap 185\nbudget 1\npool 100000\nsite 0 0\ncost 185363 185364\nbound 0\nanswer budget\nopen 0\nleases 1\nroot 0 0 19\nS 185364\nO 0\nO 131072\nO 131072\nB 185363\n";

/// The same with a byte after it.
const SURPLUS: &[u8] =
    b"siting answer 1\nsiting 1\nkind sum\npoint 2 2 1\npermit 0 0 4 0 4 4 0 4\nend\ngap 185\nbudget 1\npool 100000\nsite 0 0\ncost 185363 185364\nbound 0\nanswer budget\nopen 0\nleases 1\nroot 0 0 19\nS 185364\nO 0\nO 131072\nO 131072\nB 185363\nend\n\n";

/// A source of a text, in chunks of 100 bytes, which fails at this call, counted from 1.
fn source_of(rt: &impl Abort, alloc: Global, text: &[u8], fails: u64) -> MemSource {
    let bytes = Vec::from_slice(alloc, text).expect(rt, "memory");
    let fails = Vec::from_slice(alloc, &[fails]).expect(rt, "memory");
    MemSource::new(bytes, 100, fails)
}

/// The error where nothing was loaded.
fn error_of(loaded: Result<(Head, NodeList), LoadError>) -> Option<LoadError> {
    match loaded {
        Ok(_) => None,
        Err(error) => Some(error),
    }
}

/// The form of a text is wrong at this line.
fn form(line: u64) -> CheckFault {
    CheckFault {
        number: FORM,
        line,
        differ: None,
    }
}

#[test]
fn a_valid_answer_is_loaded(rt: HostRuntime) {
    let mut source = source_of(&rt, rt.alloc(), ONE_SPLIT, 0);
    let (head, nodes) = load(rt.alloc(), &mut source).expect(&rt, "a valid answer");
    assert_eq!(rt; head.gap, 185);
    assert_eq!(rt; head.best(), Some((Site::of(0, 0), 185_363, 185_364)));
    let wants = [
        (Square::of(0, 0, 19), Mark::Split(Some(185_364))),
        (Square::of(0, 0, 18), Mark::Left(0)),
        (Square::of(262_144, 0, 18), Mark::Left(131_072)),
        (Square::of(0, 262_144, 18), Mark::Left(131_072)),
        (Square::of(262_144, 262_144, 18), Mark::Bounded(185_363)),
    ];
    assert_eq!(rt; nodes.nodes().len(), 5);
    for (node, want) in nodes.nodes().iter().zip(wants) {
        assert_eq!(rt; (node.square, node.mark), want);
    }
}

#[test]
fn other_texts_are_refused(rt: HostRuntime) {
    let cases: [(&[u8], u64); 3] = [(CUT, 22), (SURPLUS, 23), (b"", 1)];
    for (text, line) in cases {
        let mut source = source_of(&rt, rt.alloc(), text, 0);
        match error_of(load(rt.alloc(), &mut source)) {
            Some(LoadError::Check(fault)) => assert_eq!(rt; fault, form(line)),
            _ => panic!(rt; "accepted"),
        }
    }
    // A read fails after the first fault: all is read first.
    let mut source = source_of(&rt, rt.alloc(), SURPLUS, 3);
    assert!(rt;
        matches!(
            error_of(load(rt.alloc(), &mut source)),
            Some(LoadError::ReadFault)
        )
    );
}

/// What comes of the answer of one split with this budget and this pool: how many leases it had and
/// how many squares are open, or why it isn't reopened.
fn reopened(
    rt: &impl Abort,
    alloc: Global,
    budget: u32,
    pool: u32,
) -> Result<(u32, u32), ReopenError>
    requires budget { budget ≤ 1000000 }
    requires pool_least { 1 ≤ pool }
    requires pool_most { pool ≤ 1000000 }
{
    let mut source = source_of(rt, alloc, ONE_SPLIT, 0);
    let (head, nodes) = load(alloc, &mut source).expect(rt, "a valid answer");
    let (job, pool) = reopen(alloc, head, &nodes, budget, pool)?;
    assert_eq!(rt; job.start, Some((Site::of(0, 0), 185_364)));
    assert_eq!(rt; job.budget, budget);
    Ok((pool.leases(), pool.open_count()))
}

#[test]
fn small_budgets_and_pools_are_refused(rt: HostRuntime) {
    let cases = [
        (0, 1, Err(ReopenError::SmallBudget { has: 0, wants: 1 })),
        (1, 2, Err(ReopenError::SmallPool { has: 2, wants: 3 })),
        (1, 3, Ok((1, 3))),
        (10, 100_000, Ok((1, 3))),
    ];
    for (budget, pool, want) in cases {
        assert_eq!(rt; reopened(&rt, rt.alloc(), budget, pool), want);
    }
}
