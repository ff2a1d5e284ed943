//! Dyadic squares of the grid: their corners, quarters and centres, which points they hold, and the
//! order of the squares of a tree.
//!
//! A square has a corner, in grid units, and a level; its side is 2^level grid units, and a length
//! is 65,536 of these.
#![tactic(auto)]

mod laws;
mod spread;
mod square;
#[cfg(test)]
mod tests;

pub use laws::{
    closed_holds, leaves_tile, preorder_rises, quarters_tile, rank_orders, sorted_is_preorder,
    tree_lies_within, tree_size, walks_are_trees,
};
pub use square::Square;
