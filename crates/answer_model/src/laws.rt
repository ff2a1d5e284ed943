//! Laws of valid answers. Each is a clause of a function that does nothing.

ghost use Rattle.std.specs.Prelude.{◌≡◌, map};
ghost use Rattle.siting_definitions.specs.Answer.{Answer, IsValid, upper_cost};
ghost use Rattle.siting_definitions.specs.Claims.{Claims};
ghost use Rattle.siting_definitions.specs.Marks.{AreMarks};
ghost use Rattle.siting_definitions.specs.Sites.{root_of};
ghost use Rattle.siting_definitions.specs.Tree.{Tree, preorder};
ghost use Rattle.discard_log.specs.Nodes.{mark_of, tree_square};
ghost use Rattle.answer_model.specs.Nodes.{nodes_of};

/// A valid answer claims no more than holds: its two costs enclose the cost of its permitted site,
/// its bound is at most the cost of every permitted point, and it says `solved` exactly where the
/// upper cost is within the gap of the bound.
pub fn a_valid_answer_claims()
    ensures { (a : Answer) → IsValid a → Claims a.head }
{}

/// The nodes of a valid answer are the squares of its tree in preorder, with its marks.
pub fn a_valid_answer_has_its_nodes()
    ensures { (a : Answer) → IsValid a
        → (t : Tree)
        × AreMarks a.head.instance a.head.gap (upper_cost a.head.best)
        t (root_of a.head.instance) a.marks
        × (map tree_square (nodes_of a) ≡ preorder t (root_of a.head.instance))
        × (map mark_of (nodes_of a) ≡ a.marks) }
{}
