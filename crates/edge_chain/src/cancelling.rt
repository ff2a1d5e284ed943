//! Whether edges cancel.

ghost use Rattle.std.specs.Prelude.{◌≡◌, ◌↔◌, IsTrue, IfOk, length, map, IsPermutation, IsSortedByKey};
ghost use Rattle.edge_chain.specs.Order.{key, edge_cmp};
ghost use Rattle.edge_chain.specs.Chain as chains;

use crate::shapes::Edge;
use std::alloc::{AllocError, Global};

/// The edges in the opposite direction.
fn reversed(alloc: Global, edges: &[Edge]) -> Result<Vec<Edge>, AllocError>
    ensures { IfOk result (λ v. v.items ≡ map chains.reversed edges.now) }
{
    edges.iter().map(|e| e.reversed()).collect(alloc)
}

/// Whether two edges are the same.
fn same_edge(a: Edge, b: Edge) -> bool
    ensures { IsTrue result ↔ (a ≡ b) }
{
    a.start.x == b.start.x && a.start.y == b.start.y && a.end.x == b.end.x && a.end.y == b.end.y
}

/// Whether two lists of one length are the same.
fn same(a: &[Edge], b: &[Edge]) -> bool
    requires { length a.now ≡ length b.now }
    ensures { IsTrue result ↔ (a.now ≡ b.now) }
{
    for i in 0..a.len() {
        if !same_edge(a[i], b[i]) {
            return false;
        }
    }
    true
}

/// The edges in the order of their coordinates.
fn sorted(mut edges: Vec<Edge>) -> Vec<Edge>
    ensures same { IsPermutation edges.items result.items }
    ensures order { IsSortedByKey key edge_cmp result.items }
{
    edges.sort_unstable_by_key(|e| (e.start.x, e.start.y, e.end.x, e.end.y));
    edges
}

/// Whether edges cancel: all of them, reversed, are the same edges in another order.
pub fn cancel(alloc: Global, edges: Vec<Edge>) -> Result<bool, AllocError>
    ensures { IfOk result (λ b. IsTrue b ↔ chains.Cancel edges.items) }
{
    let back = sorted(reversed(alloc, edges.as_slice())?);
    let edges = sorted(edges);
    Ok(same(edges.as_slice(), back.as_slice()))
}
