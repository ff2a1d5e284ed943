//! Laws of resumed searches. Each function here does nothing, and its clauses are the law.

ghost use Rattle.std.specs.Prelude.{ℕ, ℤ, List, Option};
ghost use Rattle.siting_definitions.specs.Point.{Pt};
ghost use Rattle.siting_definitions.specs.Answer.{Answer, Head, IsValid};
ghost use Rattle.discard_log.specs.declared.node.Node.{Node};
ghost use Rattle.pool_core.specs.Seats.{IsKeptBy};
ghost use Rattle.pool_core.specs.State.{State};
ghost use Rattle.search_answer.specs.Ending.{answer_of};
ghost use Rattle.resume_job.specs.Loading.{AreOfValid};
ghost use Rattle.resume_job.specs.Reopening.{HaveRoom, IsResumption};
ghost use Rattle.resume_job.specs.Resumed.{AreResumed, GoesOn, IsResumed, IsResumedBy, last_of};

/// A search that began from a valid answer's nodes and finished, by however many workers, gives an
/// answer that is resumed from it. Where no more squares were held at the stop than there are
/// workers, it shows its work.
pub fn a_resumed_search_resumes()
    ensures resumed { (h after : Head) (ns ms : List Node) (budget pool : ℕ)
        → (s : State) (best : Option (Pt × ℤ))
        → AreOfValid h ns → HaveRoom ns budget pool
        → IsResumption h ns budget pool s best after ms
        → IsResumed (answer_of h ns) budget pool (answer_of after ms) }
    ensures shown { (h after : Head) (ns ms : List Node) (budget pool workers : ℕ)
        → (s : State) (best : Option (Pt × ℤ))
        → AreOfValid h ns → HaveRoom ns budget pool
        → IsResumption h ns budget pool s best after ms → IsKeptBy s workers
        → IsResumedBy (answer_of h ns) (answer_of after ms) workers }
{}

/// The last of any number of answers, each resumed from the one before, goes on from the first.
pub fn answers_resumed_in_turn_go_on()
    ensures { (a : Answer) (resumed : List (ℕ × ℕ × Answer)) → IsValid a
        → AreResumed a resumed → GoesOn a (last_of a resumed) }
{}
