//! Tests of the heap.

use super::*;
use dyadic_square::Square;
use std::test::Fail;

/// An entry whose square and flag go with its bound.
fn entry(bound: i8) -> Entry {
    let bound = bound as i64;
    Entry {
        square: Square::of(bound, 1 - bound, 0),
        bound,
        raised: bound > 5,
    }
}

#[test]
fn bounds_come_out_rising(rt: HostRuntime) -> Result<(), Fail> {
    // The bounds in the order in which they go in, and the order in which they come out.
    let pushed = [7, -3, 12, 0, 127, -3, 5, -128, 7, 1];
    let popped = [-128, -3, -3, 0, 1, 5, 7, 7, 12, 127];
    let mut heap = Heap::with_room(rt.alloc(), 10).map_err(|_| "memory")?;
    assert_eq!(rt; heap.pop(), None);
    for (count, bound) in pushed.iter().enumerate() {
        assert_eq!(rt; heap.len(), count);
        assert_eq!(rt; heap.spare(), 10 - count);
        heap.push(entry(*bound));
    }
    assert_eq!(rt; heap.spare(), 0);
    for bound in popped {
        assert_eq!(rt; heap.pop(), Some(entry(bound)));
    }
    assert_eq!(rt; heap.pop(), None);
    assert_eq!(rt; heap.spare(), 10);
    Ok(())
}
