//! Laws of the squares of a tree. Each function here does nothing, and its clause is the law.

ghost use Rattle.std.specs.Prelude.{◌≡◌, ◌+◌, ◌*◌, ◌<◌, ◌≤◌, ◌⊎◌, ◌↔◌, true, List};
ghost use Rattle.std.specs.Prelude.{[], ◌∷◌, length, map, count_by, All, IsPermutation};
ghost use Rattle.std.specs.List.Sorted.{IsNonDecreasingBy, IsStrictlyIncreasing};
ghost use Rattle.siting_definitions.specs.Point.{Point};
ghost use Rattle.siting_definitions.specs.Square.{IsSquare, Square, Tiles};
ghost use Rattle.siting_definitions.specs.Square.{holds, holds_closed, quarters};
ghost use Rattle.siting_definitions.specs.Tree.{Fits, Tree, TreeSquare, leaves, preorder};
ghost use Rattle.dyadic_square.specs.Order.{rank_of, z_of};
ghost use Rattle.dyadic_square.specs.Walk.{Walks};
ghost use Rattle.dyadic_square.specs.Within.{LiesWithin};

/// The quarters of a square hold each of its points once, and no other. They are squares within the
/// limits, and lie within it.
pub fn quarters_tile()
    ensures tile { (s : Square) → 0 < s.level → Tiles (quarters s) s }
    ensures limits { (s : Square) → 0 < s.level → IsSquare s → All IsSquare (quarters s) }
    ensures within { (s : Square) → 0 < s.level → All (LiesWithin s) (quarters s) }
{}

/// The leaves of a tree hold each point of its root once, and no other.
pub fn leaves_tile()
    ensures { (t : Tree) (root : Square)
        → Fits t root.level → Tiles (leaves (preorder t root)) root }
{}

/// A tree has one square, and four more for each that is split.
pub fn tree_size()
    ensures { (t : Tree) (root : Square)
        → length (preorder t root)
        ≡ 1 + 4 * count_by (λ (s : TreeSquare). s.is_split) (preorder t root) }
{}

/// The lists that are read in preorder, with a list of the squares to come,
/// are the preorders of trees.
pub fn walks_are_trees()
    ensures tree { (root : Square) (squares : List TreeSquare) → Walks (root ∷ []) squares
        → (t : Tree) × Fits t root.level × (squares ≡ preorder t root) }
    ensures walk { (t : Tree) (root : Square)
        → Fits t root.level → Walks (root ∷ []) (preorder t root) }
{}

/// The squares of a tree are within the limits, and lie within its root.
pub fn tree_lies_within()
    ensures limits { (t : Tree) (root : Square) → Fits t root.level → IsSquare root
        → All (λ (s : TreeSquare). IsSquare s.square) (preorder t root) }
    ensures within { (t : Tree) (root : Square) → Fits t root.level
        → All (λ (s : TreeSquare). LiesWithin root s.square) (preorder t root) }
{}

/// The closed square holds each point that the half-open one holds.
pub fn closed_holds()
    ensures { (s : Square) (p : Point) → holds s p ≡ true → holds_closed s p ≡ true }
{}

/// The order of ranks is that of z, and of two squares with one z the larger comes first.
pub fn rank_orders()
    ensures { (root a b : Square) → a.level ≤ 37 → b.level ≤ 37
        → (rank_of root a < rank_of root b)
        ↔ ((z_of root a < z_of root b) ⊎ ((z_of root a ≡ z_of root b) × (b.level < a.level))) }
{}

/// The ranks of a tree's squares rise strictly in preorder, so no square stands there twice.
pub fn preorder_rises()
    ensures { (t : Tree) (root : Square) → root.level ≤ 37 → Fits t root.level
        → IsStrictlyIncreasing (map (λ (s : TreeSquare). rank_of root s.square) (preorder t root)) }
{}

/// The squares of a tree, sorted by their ranks, are its preorder.
pub fn sorted_is_preorder()
    ensures { (t : Tree) (root : Square) (sorted : List TreeSquare)
        → root.level ≤ 37 → Fits t root.level
        → IsPermutation sorted (preorder t root)
        → IsNonDecreasingBy (λ (s : TreeSquare). rank_of root s.square) sorted
        → sorted ≡ preorder t root }
{}
