//! Whether the interior of a forbidden polygon holds no wanted point.

ghost use Rattle.std.specs.Prelude.{◌≡◌, ◌≤◌, ◌↔◌, IsTrue, IfOk, All, length, filter, not};
ghost use Rattle.siting_definitions.specs.Point as points;
ghost use Rattle.edge_chain.specs.Chain as chains;
ghost use Rattle.edge_chain.specs.Piece as pieces;
ghost use Rattle.edge_chain.specs.Wanted.{IsUnwanted, rest_of};
ghost use Rattle.cover_check.specs.Verdict.{HasWanted};

use crate::shapes::Ring;
use edge_chain::{Edge, Vertex, cancel, inner_point, is_clear, winding};
use std::alloc::{AllocError, Global};

/// The edges that may meet the interior of a piece.
fn edges_through(alloc: Global, piece: &[Vertex], edges: &[Edge]) -> Result<Vec<Edge>, AllocError>
    ensures { IfOk result (λ v. v.items
        ≡ filter (λ (e : chains.Edge). not (pieces.is_clear piece.now e)) edges.now) }
{
    let mut through = Vec::new(alloc);
    for e in edges {
        if !is_clear(piece, *e) {
            through.push(*e)?;
        }
    }
    Ok(through)
}

/// Whether the edges of a chain that may meet the interior of a piece cancel.
fn are_clear(alloc: Global, piece: &[Vertex], edges: &[Edge]) -> Result<bool, AllocError>
    ensures { IfOk result (λ b. IsTrue b ↔ pieces.IsClear piece.now edges.now) }
{
    let through = edges_through(alloc, piece, edges)?;
    cancel(alloc, through)
}

/// Whether no point in the interior of a piece is wanted: no edge of the forbidden areas meets it,
/// and they wind round it; or none of the region, which doesn't; or none of both, taken together in
/// `rest`, and the region doesn't wind round it more often than the forbidden areas.
pub(crate) fn is_unwanted(
    alloc: Global,
    region: &[Edge],
    forbidden: &[Edge],
    rest: &[Edge],
    piece: &[Vertex],
) -> Result<bool, AllocError>
    requires few { 3 ≤ length piece.now }
    requires rest { rest.now ≡ rest_of region.now forbidden.now }
    ensures { IfOk result (λ b. IsTrue b ↔ IsUnwanted region.now forbidden.now piece.now) }
{
    let p = inner_point(piece);
    if winding(forbidden, p) > 0 && are_clear(alloc, piece, forbidden)? {
        return Ok(true);
    }
    if winding(region, p) <= 0 && are_clear(alloc, piece, region)? {
        return Ok(true);
    }
    Ok(winding(rest, p) <= 0 && are_clear(alloc, piece, rest)?)
}

/// The first piece, counted from 1, in whose interior a point may be wanted.
pub(crate) fn first_wanted(
    alloc: Global,
    region: &[Edge],
    forbidden: &[Edge],
    rest: &[Edge],
    pieces: &[Ring],
) -> Result<Option<u64>, AllocError>
    requires few { All (λ vs. 3 ≤ length vs) pieces.now }
    requires rest { rest.now ≡ rest_of region.now forbidden.now }
    ensures { IfOk result (λ found. HasWanted region.now forbidden.now pieces.now found) }
{
    for (i, piece) in pieces.iter().enumerate() {
        if !is_unwanted(alloc, region, forbidden, rest, piece.vertices())? {
            return Ok(Some(i as u64 + 1));
        }
    }
    Ok(None)
}
