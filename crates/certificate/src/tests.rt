//! Writing an answer.

use super::*;
use case_maker::one_town;
use discard_log::{Log, Mark, Node};
use dyadic_square::Square;
use port_io::{MemSink, Out};
use site_model::Site;
use std::alloc::Global;
use std::process::Abort;
use std::test::Fail;

const TEXT: &str = "siting answer 1\n\
    siting 1\nkind sum\npoint 2 2 1\npermit 0 0 4 0 4 4 0 4\nend\n\
    gap 185\nbudget 0\npool 100000\nsite 0 0\ncost 185363 185364\nbound 0\nanswer budget\nopen 0\n\
    leases 0\nroot 0 0 19\nO 0\nend\n";

fn head(rt: &impl Abort, alloc: Global) -> Head {
    Head {
        instance: one_town(alloc).expect(rt, "memory"),
        gap: 185,
        budget: 0,
        pool: 100_000,
        site: Some(Site::of(0, 0)),
        cost: Some((185_363, 185_364)),
        bound: Some(0),
        word: Word::Budget,
        open_count: 0,
        leases: 0,
    }
}

#[test]
fn an_answer_without_leases(rt: HostRuntime) -> Result<(), Fail> {
    let mut log = Log::with_room(rt.alloc(), 1).map_err(|_| "memory")?;
    assert!(rt; log.spare() > 0);
    let root = Square::of(0, 0, 19);
    log.push(Node {
        square: root,
        mark: Mark::Left(0),
    });
    let nodes = log.in_preorder(root);
    let fails = Vec::new(rt.alloc());
    let mut sink = MemSink::with_room(rt.alloc(), 400, 100, fails).map_err(|_| "memory")?;
    let mut out = Out::new(&mut sink);
    write_answer(&head(&rt, rt.alloc()), &nodes, &mut out)?;
    out.finish()?;
    assert_eq!(rt; sink.bytes(), TEXT.as_bytes());
    Ok(())
}
