//! Laws of the search. Each function here does nothing, and its clauses are the law.

ghost use Rattle.std.specs.Prelude.{ℕ, List};
ghost use Rattle.siting_definitions.specs.Square.{Tiles};
ghost use Rattle.siting_definitions.specs.Tree.{leaves};
ghost use Rattle.discard_log.specs.declared.node.Node.{Node};
ghost use Rattle.pool_core.specs.Begun.{IsBegunFrom, IsResumable};
ghost use Rattle.pool_core.specs.Job.{Job, IsLawful, job_root};
ghost use Rattle.pool_core.specs.State.{State, Search, first_state, squares_of};
ghost use Rattle.pool_core.specs.Machine.{Event, Run};
ghost use Rattle.pool_core.specs.Sound.{IsPoolOf, IsSound};

/// Whatever events follow one another, from the beginning of a lawful job or from any other sound
/// state, the state stays sound, and what waits, what is leased and the logged squares that aren't
/// split tile the root.
pub fn every_run_is_sound()
    ensures first { (j : Job) → IsLawful j → IsPoolOf j (first_state j) }
    ensures sound { (before after : Search) (events : List Event)
        → IsSound before → Run before events after → IsSound after }
    ensures tiles { (w : Search) → IsSound w
        → Tiles (leaves (squares_of w.state)) (job_root w.state.job) }
{}

/// A pool that begins from the nodes of a finished tree begins in a sound state.
pub fn a_begun_pool_is_sound()
    ensures { (j : Job) (nodes : List Node) (leases : ℕ) (s : State)
        → IsLawful j → IsResumable j nodes leases → IsBegunFrom j nodes leases s → IsPoolOf j s }
{}
