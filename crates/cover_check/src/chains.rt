//! The edges of rings and of triangles.

ghost use Rattle.std.specs.Prelude.{◌≡◌, ◌<◌, ◌++◌, IfOk, map, length};
ghost use Rattle.siting_definitions.specs.Polygon as polygons;
ghost use Rattle.siting_definitions.specs.Polygon.{vertex};
ghost use Rattle.edge_chain.specs.Chain as chains;
ghost use Rattle.edge_chain.specs.Wanted as wanted;
ghost use Rattle.edge_chain.specs.Triangle.{triangle_edges, corners};
ghost use Rattle.cover_check.specs.Cover as covers;

use crate::shapes::{Owned, Ring, Triangle};
use edge_chain::{Edge, Vertex};
use std::alloc::{AllocError, Global};

/// Edge `i` of a ring: from vertex `i` to the next one, and from the last to the first.
fn edge_at(ring: &[Vertex], i: usize) -> Edge
    requires { i < length ring.now }
    ensures { result ≡ (vertex ring.now i, vertex ring.now (polygons.next_of (length ring.now) i)) }
{
    let next = if i + 1 == ring.len() { 0 } else { i + 1 };
    Edge {
        start: ring[i],
        end: ring[next],
    }
}

/// Adds the edges of a ring.
fn push_ring(edges: &mut Vec<Edge>, ring: &[Vertex]) -> Result<(), AllocError>
    ensures { IfOk result (λ _. edges.new.items ≡ edges.old.items ++ polygons.edges ring.now) }
{
    for i in 0..ring.len() {
        edges.push(edge_at(ring, i))?;
    }
    Ok(())
}

/// The edges of rings.
pub(crate) fn edges_of(alloc: Global, rings: &[Ring]) -> Result<Vec<Edge>, AllocError>
    ensures { IfOk result (λ edges. edges.items ≡ chains.edges_of rings.now) }
{
    let mut edges = Vec::new(alloc);
    for ring in rings {
        push_ring(&mut edges, ring.vertices())?;
    }
    Ok(edges)
}

/// Adds edges in the opposite direction.
fn push_reversed(edges: &mut Vec<Edge>, others: &[Edge]) -> Result<(), AllocError>
    ensures { IfOk result (λ _. edges.new.items ≡ edges.old.items ++ map chains.reversed others.now) }
{
    for e in others {
        edges.push(e.reversed())?;
    }
    Ok(())
}

/// Adds the edges of a triangle.
fn push_triangle(edges: &mut Vec<Edge>, t: Triangle) -> Result<(), AllocError>
    ensures { IfOk result (λ _. edges.new.items ≡ edges.old.items ++ polygons.edges (corners t)) }
{
    edges.push(Edge {
        start: t.a,
        end: t.b,
    })?;
    edges.push(Edge {
        start: t.b,
        end: t.c,
    })?;
    edges.push(Edge {
        start: t.c,
        end: t.a,
    })?;
    Ok(())
}

/// The edges of triangles, and then edges in the opposite direction.
pub(crate) fn cover_edges(
    alloc: Global,
    triangles: &[Owned],
    region: &[Edge],
) -> Result<Vec<Edge>, AllocError>
    ensures { IfOk result (λ edges. edges.items
        ≡ triangle_edges (map (λ (o : covers.Owned). o.triangle) triangles.now)
        ++ map chains.reversed region.now) }
{
    let mut edges = Vec::new(alloc);
    for owned in triangles {
        push_triangle(&mut edges, owned.triangle)?;
    }
    push_reversed(&mut edges, region)?;
    Ok(edges)
}

/// The edges of the region, and those of the forbidden areas in the opposite direction.
pub(crate) fn rest_of(
    alloc: Global,
    region: &[Edge],
    forbidden: &[Edge],
) -> Result<Vec<Edge>, AllocError>
    ensures { IfOk result (λ edges. edges.items ≡ wanted.rest_of region.now forbidden.now) }
{
    let mut edges = Vec::new(alloc);
    edges.extend_from_slice(region)?;
    push_reversed(&mut edges, forbidden)?;
    Ok(edges)
}
