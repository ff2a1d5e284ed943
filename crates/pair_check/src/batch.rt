//! Lines that were read and not yet checked.

ghost use Rattle.std.specs.Prelude.{◌≡◌, ◌≤◌, [], ◌∷◌, vec_capacity};
ghost use Rattle.siting_definitions.specs.Marks.{tally_of};
ghost use Rattle.pair_check.specs.declared.taking.TheConstants.{BATCH_LINES};

use cert_checker::{Tally, Walk};
use discard_log::Node;
use dyadic_square::Square;

/// Lines that were read and not yet checked.
#[derive(Drop)]
pub(crate) struct Batch {
    /// The lines, each with its square. There is room for those of a whole batch.
    pub(crate) nodes: Vec<Node>,
    /// How many lines stand above them.
    pub(crate) above: u64,
    /// The tally of the marks above them.
    pub(crate) tally: Tally,
    /// The squares that come after theirs.
    pub(crate) walk: Walk,
    ghost room: { BATCH_LINES ≤ vec_capacity nodes },
}

impl Batch {
    /// A batch without a line yet, after so many lines, before the tree of this root. `nodes` is
    /// its room, and is empty.
    pub(crate) fn begin(nodes: Vec<Node>, above: u64, root: Square) -> Batch
        requires room { BATCH_LINES ≤ vec_capacity nodes }
        requires empty { nodes.items ≡ [] }
        ensures nodes { result.nodes.items ≡ [] }
        ensures above { result.above ≡ above }
        ensures tally { result.tally ≡ tally_of [] }
        ensures walk { result.walk ≡ root ∷ [] }
    {
        Batch {
            nodes,
            above,
            tally: Tally::new(),
            walk: Walk::begin(root),
        }
    }
}
