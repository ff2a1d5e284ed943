//! Laws of a check in parts. Each is a clause of a function that does nothing.

ghost use Rattle.std.specs.Prelude.{◌≡◌, ℕ, ◌+◌, List, ◌++◌, length, map};
ghost use Rattle.siting_definitions.specs.Marks.{tally_of};
ghost use Rattle.siting_definitions.specs.Answer.{Head};
ghost use Rattle.discard_log.specs.declared.node.Node.{Node};
ghost use Rattle.discard_log.specs.Nodes.{mark_of};
ghost use Rattle.answer_model.specs.Tally.{tally_sum};
ghost use Rattle.cert_checker.specs.Faults.{or_else};
ghost use Rattle.pair_check.specs.Lines.{lines_fault};

/// Of lines of nodes that are cut in two the first fault is the first part's, or else the second's,
/// with their own numbers; and their tally is that of both, joined.
pub fn parts_join()
    ensures fault { (h : Head) (above : ℕ) (ns ms : List Node)
        → lines_fault h above (ns ++ ms)
        ≡ or_else (lines_fault h above ns) (lines_fault h (above + length ns) ms) }
    ensures tally { (ns ms : List Node)
        → tally_of (map mark_of (ns ++ ms))
        ≡ tally_sum (tally_of (map mark_of ns)) (tally_of (map mark_of ms)) }
{}
