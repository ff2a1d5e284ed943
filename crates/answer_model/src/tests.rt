//! Tests of heads, marks and tallies.

use super::*;
use case_maker::one_town;
use site_model::Site;
use siting_definitions::Mark;
use std::alloc::Global;
use std::process::Abort;

fn head(rt: &impl Abort, alloc: Global) -> Head {
    Head {
        instance: one_town(alloc).expect(rt, "memory"),
        gap: 185,
        budget: 0,
        pool: 100_000,
        site: Some(Site::of(0, 0)),
        cost: Some((185_363, 185_364)),
        bound: Some(0),
        word: Word::Budget,
        open_count: 0,
        leases: 0,
    }
}

fn may_be_shared<T: Send + Sync>(_value: &T) {}

#[test]
fn threads_may_share_a_head(rt: HostRuntime) {
    may_be_shared(&head(&rt, rt.alloc()));
}

#[test]
fn the_site_with_its_costs(rt: HostRuntime) {
    let head = head(&rt, rt.alloc());
    let best = Some((Site::of(0, 0), 185_363, 185_364));
    assert_eq!(rt; head.best(), best);
    assert_eq!(rt; head.upper_cost(), Some(185_364));
}

#[test]
fn the_mark_of_a_leaf(rt: HostRuntime) {
    let instance = one_town(rt.alloc()).expect(&rt, "memory");
    let root = instance.root();
    // The gap, the least upper cost, and the mark of the root, whose fine bound is 0.
    let cases = [
        (185, None, Mark::Left(0)),
        (185, Some(186), Mark::Left(0)),
        (185, Some(185), Mark::Bounded(0)),
    ];
    for (gap, least, mark) in cases {
        assert_eq!(rt; leaf_mark(&instance, gap, least, root), mark);
    }
}

#[test]
#[tactic(auto, unfolding(siting_definitions::specs::Marks::tally_of))]
fn a_tally_of_five_marks(rt: HostRuntime) {
    let mut first = Tally::new();
    first.add(Mark::Split(Some(7)));
    first.add(Mark::Left(-3));
    let mut second = Tally::new();
    second.add(Mark::Shut);
    second.add(Mark::Bounded(5));
    second.add(Mark::Floor(2));
    let want = Tally {
        nodes: 5,
        splits: 1,
        leaves: 4,
        open_leaves: 1,
        floor_leaves: 1,
        least: Some(-3),
    };
    assert_eq!(rt; first.joined(second), want);
    assert!(rt; is_split(Mark::Split(None)));
    assert!(rt; !is_split(Mark::Shut));
}
