//! The least centre bound of an answer's leaves.

ghost use Rattle.std.specs.Prelude.{◌≡◌, Some};
ghost use Rattle.std.specs.Int.{int_min};
ghost use Rattle.siting_definitions.specs.Bounds.{fine_of};
ghost use Rattle.siting_definitions.specs.Marks as marks;
ghost use Rattle.siting_definitions.specs.Marks.{lesser};
ghost use Rattle.centre_bound.specs.Cut.{centre_bound_of};
ghost use Rattle.centre_bound.specs.Polished.{HasFineBound, HaveFineBounds, leaf_bound};
ghost use Rattle.centre_bound.specs.Polished.{least_centre_bound};

use crate::bound::bound_from_fine;
use discard_log::{Mark, Node, NodeList};
use dyadic_square::Square;
use site_model::Instance;

/// The least centre bound of the leaves that aren't excluded, in cost units, and none exactly where
/// all are. The bound in a node's mark is the fine bound of its square, as in each valid answer.
///
/// A leaf's centre bound is at least its own bound. So it begins with a leaf of least bound, and a
/// leaf whose bound is at least the least centre bound found needs no work.
pub fn polished(instance: &Instance, nodes: &NodeList) -> Option<i64>
    requires { HaveFineBounds instance.now nodes.now }
    ensures { result ≡ least_centre_bound instance.now nodes.now }
{
    let nodes = nodes.nodes();
    let mut least = first_bound(instance, nodes);
    for node in nodes {
        least = lesser_with_node(instance, least, *node);
    }
    least
}

/// The centre bound of a leaf of least bound, in cost units, if there is a leaf that isn't
/// excluded.
fn first_bound(instance: &Instance, nodes: &[Node]) -> Option<i64>
    requires { HaveFineBounds instance.now nodes.now }
    ensures { lesser result (least_centre_bound instance.now nodes.now)
        ≡ least_centre_bound instance.now nodes.now }
{
    let first = least_leaf(nodes);
    if first >= nodes.len() {
        return None;
    }
    lesser_with_node(instance, None, nodes[first])
}

/// The place of a leaf of least bound: of its answer only speed depends.
fn least_leaf(nodes: &[Node]) -> usize {
    let mut place = 0;
    let mut least = None;
    for i in 0..nodes.len() {
        let bound = bound_of(nodes[i].mark);
        if is_below(bound, least) {
            place = i;
            least = bound;
        }
    }
    place
}

/// Whether there is a bound, and none yet that is at most it, in cost units.
fn is_below(bound: Option<i64>, least: Option<i64>) -> bool {
    match (bound, least) {
        (Some(bound), Some(least)) => bound < least,
        (Some(_), None) => true,
        (None, _) => false,
    }
}

/// The lesser of the least found and a node's centre bound, in cost units.
fn lesser_with_node(instance: &Instance, least: Option<i64>, node: Node) -> Option<i64>
    requires { HasFineBound instance.now node }
    ensures { result ≡ lesser least (leaf_bound instance.now node) }
{
    match bound_of(node.mark) {
        Some(bound) => lesser_with_leaf(instance, least, node.square, bound),
        None => least,
    }
}

/// The lesser of the least found and the centre bound of a leaf with this fine bound, in cost
/// units.
fn lesser_with_leaf(
    instance: &Instance,
    least: Option<i64>,
    square: Square,
    fine: i64,
) -> Option<i64>
    requires { fine ≡ fine_of instance.now square }
    ensures { result ≡ lesser least (Some (centre_bound_of instance.now square)) }
{
    match least {
        Some(found) => Some(lesser_of(instance, found, square, fine)),
        None => Some(bound_from_fine(instance, square, fine)),
    }
}

/// The lesser of a number and the centre bound of a square with this fine bound, in cost units.
fn lesser_of(instance: &Instance, found: i64, square: Square, fine: i64) -> i64
    requires { fine ≡ fine_of instance.now square }
    ensures { result ≡ int_min found (centre_bound_of instance.now square) }
{
    if found <= fine {
        found
    } else {
        found.min(bound_from_fine(instance, square, fine))
    }
}

/// The bound that a mark gives, in cost units: none of a square that was split or excluded.
fn bound_of(mark: Mark) -> Option<i64>
    ensures { result ≡ marks.bound_of mark }
{
    match mark {
        Mark::Split(_) | Mark::Shut => None,
        Mark::Bounded(bound) | Mark::Floor(bound) | Mark::Left(bound) => Some(bound),
    }
}
