//! The check of a cover.

ghost use Rattle.std.specs.Prelude.{◌≡◌, ◌↔◌, None, IsTrue, IfOk};
ghost use Rattle.edge_chain.specs.Chain as chains;
ghost use Rattle.cover_check.specs.Cover as covers;
ghost use Rattle.cover_check.specs.Verdict as verdicts;
ghost use Rattle.cover_check.specs.Verdict.{Tells, HasWanted, fine_polygons};

use crate::chains::{cover_edges, edges_of, rest_of};
use crate::cover::Cover;
use crate::faults::CoverFault;
use crate::fine::fine_rings;
use crate::held::first_fault;
use crate::pieces::first_wanted;
use edge_chain::cancel;
use std::alloc::{AllocError, Global};

/// Whether the permitted set of the instance holds what the planner drew, within the tile: none
/// exactly where the cover is one, and else the first test that fails.
pub fn check(alloc: Global, cover: &Cover) -> Result<Option<CoverFault>, AllocError>
    ensures { IfOk result (λ found. Tells cover.now found) }
{
    if !edges_cancel(alloc, cover)? {
        return Ok(Some(CoverFault::Edges));
    }
    match triangles_fault(alloc, cover)? {
        Some(fault) => Ok(Some(fault)),
        None => check_pieces(alloc, cover),
    }
}

/// Whether the edges of the triangles and the reversed edges of the region cancel.
fn edges_cancel(alloc: Global, cover: &Cover) -> Result<bool, AllocError>
    ensures { IfOk result (λ b. IsTrue b ↔ chains.Cancel (covers.cover_edges cover.now)) }
{
    let region = edges_of(alloc, cover.region())?;
    let edges = cover_edges(alloc, cover.triangles(), region.as_slice())?;
    cancel(alloc, edges)
}

/// The fault of the first triangle with one.
fn triangles_fault(alloc: Global, cover: &Cover) -> Result<Option<CoverFault>, AllocError>
    ensures { IfOk result (λ fault. fault ≡ verdicts.triangles_fault cover.now) }
{
    let permitted = fine_rings(alloc, cover.shift(), cover.instance().permitted())?;
    Ok(first_fault(cover.tile(), permitted.as_slice(), cover.triangles()))
}

/// The check of the forbidden polygons, after all other tests passed.
fn check_pieces(alloc: Global, cover: &Cover) -> Result<Option<CoverFault>, AllocError>
    requires edges { chains.Cancel (covers.cover_edges cover.now) }
    requires triangles { verdicts.triangles_fault cover.now ≡ None }
    ensures { IfOk result (λ found. Tells cover.now found) }
{
    match wanted_piece(alloc, cover)? {
        None => Ok(None),
        Some(number) => Ok(Some(CoverFault::Piece(number))),
    }
}

/// The first forbidden polygon, counted from 1, in whose interior a point may be wanted.
fn wanted_piece(alloc: Global, cover: &Cover) -> Result<Option<u64>, AllocError>
    ensures { IfOk result (λ found. HasWanted (chains.edges_of cover.now.region)
        (chains.edges_of cover.now.forbidden)
        (fine_polygons cover.now.shift cover.now.instance.forbidden) found) }
{
    let region = edges_of(alloc, cover.region())?;
    let forbidden = edges_of(alloc, cover.forbidden())?;
    let rest = rest_of(alloc, region.as_slice(), forbidden.as_slice())?;
    let pieces = fine_rings(alloc, cover.shift(), cover.instance().forbidden())?;
    first_wanted(
        alloc,
        region.as_slice(),
        forbidden.as_slice(),
        rest.as_slice(),
        pieces.as_slice(),
    )
}
