//! The exclusion test.

use crate::bounds::{SquareRow, square_of};
use exclusion::excluded;
use instance_text::read_instance;
use std::alloc::Global;

/// Writes for each square 1 where it is excluded in the instance that the text says, and else 0,
/// and answers whether the text says an instance and the rows are squares.
#[unsafe(no_mangle)]
pub extern "C" fn bsss_bench_excluded(
    alloc: Global,
    text: &[u8],
    squares: &[SquareRow],
    answers: &mut [u8],
) -> bool {
    let Ok(instance) = read_instance(alloc, text) else {
        return false;
    };
    for (row, answer) in squares.iter().zip(answers.iter_mut()) {
        let Some(square) = square_of(*row) else {
            return false;
        };
        *answer = excluded(&instance, square) as u8;
    }
    true
}
