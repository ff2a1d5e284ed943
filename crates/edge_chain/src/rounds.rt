//! How often a chain winds round a point.

ghost use Rattle.std.specs.Prelude.{◌≡◌, ◌≤◌, if◌then◌else◌};
ghost use Rattle.edge_chain.specs.Chain as chains;
ghost use Rattle.edge_chain.specs.Thirds.{thirds};

use crate::shapes::{Edge, Thirds, Vertex};
use crate::sides::side_in_thirds;

/// Whether a vertex is at the height of `p` or below.
fn is_low(v: Vertex, p: Thirds) -> bool
    ensures { result ≡ chains.is_low v (thirds p) }
{
    3 * v.y <= p.y
}

/// Whether an edge rises past `p`, to its right: it starts at the height of `p` or below, ends above
/// it, and has `p` strictly to its left.
pub fn rises(e: Edge, p: Thirds) -> bool
    ensures { result ≡ chains.rises e (thirds p) }
{
    is_low(e.start, p) && !is_low(e.end, p) && side_in_thirds(e, p) > 0
}

/// 1 for true, 0 for false.
fn once(test: bool) -> usize
    ensures value { result ≡ (if test then 1 else 0) }
    ensures few { result ≤ 1 }
{
    if test { 1 } else { 0 }
}

/// How often a chain winds round `p`, counter-clockwise: how many of its edges rise past `p`, to its
/// right, less how many fall.
pub fn winding(edges: &[Edge], p: Thirds) -> i128
    ensures { result ≡ chains.winding edges.now (thirds p) }
{
    let mut rising = 0usize;
    let mut falling = 0usize;
    for e in edges {
        let up = rises(*e, p);
        let down = rises(e.reversed(), p);
        let risen = once(up);
        let fallen = once(down);
        rising += risen;
        falling += fallen;
    }
    rising as i128 - falling as i128
}
