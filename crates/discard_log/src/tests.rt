//! Tests of the log.

use super::*;
use dyadic_square::Square;
use std::test::Fail;

#[test]
fn nodes_in_any_order(rt: HostRuntime) -> Result<(), Fail> {
    let root = Square::of(0, 0, 2);
    // The indexes in preorder, in the order in which the nodes come, with their squares.
    let table = [
        (8, Square::of(2, 2, 1)),
        (3, Square::of(2, 0, 0)),
        (0, root),
        (6, Square::of(3, 1, 0)),
        (1, Square::of(0, 0, 1)),
        (4, Square::of(3, 0, 0)),
        (7, Square::of(0, 2, 1)),
        (2, Square::of(2, 0, 1)),
        (5, Square::of(2, 1, 0)),
    ];
    let mut log = Log::with_room(rt.alloc(), 9).map_err(|_| "memory")?;
    for (index, square) in table {
        assert!(rt; log.spare() > 0);
        log.push(Node {
            square,
            mark: Mark::Bounded(index),
        });
    }
    assert_eq!(rt; log.spare(), 0);
    assert!(rt; log.nodes().len() > 2);
    log.remark(2, Mark::Shut);
    let shut = log.nodes().get(2);
    assert_eq!(rt;
        shut.copied(),
        Some(Node {
            square: root,
            mark: Mark::Shut
        })
    );
    log.remark(2, Mark::Bounded(0));
    let mut list = log.in_preorder(root);
    for (index, node) in list.nodes().iter().enumerate() {
        assert_eq!(rt; node.mark, Mark::Bounded(index as i64));
    }
    assert_eq!(rt; list.nodes().len(), 9);
    list.remark(8, Mark::Shut);
    let last = list.nodes().last();
    assert_eq!(rt;
        last.copied(),
        Some(Node {
            square: Square::of(2, 2, 1),
            mark: Mark::Shut
        })
    );
    Ok(())
}

#[test]
fn nodes_as_they_stand(rt: HostRuntime) -> Result<(), Fail> {
    let node = Node {
        square: Square::of(0, 0, 2),
        mark: Mark::Shut,
    };
    let list = NodeList::from_vec(Vec::from_slice(rt.alloc(), &[node])?);
    assert_eq!(rt; list.nodes().len(), 1);
    assert_eq!(rt; list.nodes().last().copied(), Some(node));
    Ok(())
}
