//! Sorting the nodes of a tree.

use crate::bounds::{SquareRow, square_of};
use discard_log::{Log, Mark, Node};
use std::alloc::Global;

/// A log of the squares as nodes; none where memory runs out or a row is no square.
fn log_of(alloc: Global, squares: &[SquareRow]) -> Option<Log> {
    let Ok(mut log) = Log::with_room(alloc, squares.len()) else {
        return None;
    };
    for row in squares {
        let square = square_of(*row)?;
        if log.spare() == 0 {
            return None;
        }
        log.push(Node {
            square,
            mark: Mark::Shut,
        });
    }
    Some(log)
}

/// Logs the squares as nodes, and answers whether there was memory and the rows are squares. It
/// writes them as they came. What `bsss_bench_preorder` takes longer is the sort.
#[unsafe(no_mangle)]
pub extern "C" fn bsss_bench_log(
    alloc: Global,
    squares: &[SquareRow],
    logged: &mut [SquareRow],
) -> bool {
    let log = log_of(alloc, squares);
    for (square, row) in squares.iter().zip(logged.iter_mut()) {
        *row = *square;
    }
    log.is_some()
}

/// Logs the squares as nodes, sorts them by their place in the tree of the first one, and answers
/// whether there was memory and the rows are squares. It writes the lower left corners as they
/// stand then.
#[unsafe(no_mangle)]
pub extern "C" fn bsss_bench_preorder(
    alloc: Global,
    squares: &[SquareRow],
    sorted: &mut [SquareRow],
) -> bool {
    let Some(first) = squares.first() else {
        return false;
    };
    let Some(root) = square_of(*first) else {
        return false;
    };
    let Some(log) = log_of(alloc, squares) else {
        return false;
    };
    let list = log.in_preorder(root);
    for (node, row) in list.nodes().iter().zip(sorted.iter_mut()) {
        row.x = node.square.x;
        row.y = node.square.y;
        row.level = node.square.level;
    }
    true
}
