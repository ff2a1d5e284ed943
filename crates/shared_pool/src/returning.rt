//! Giving a leased square back.

ghost use Rattle.std.specs.Prelude.{◌≡◌, true, [], ◌∷◌, Contains, IsSome, MatchOption, ⊤};
ghost use Rattle.pool_core.specs.State as states;
ghost use Rattle.pool_core.specs.Verdict.{bounds_of, finding_of};
ghost use Rattle.pool_core.specs.Machine.{Returns};
ghost use Rattle.pool_core.specs.PoolAnswers.{given_of};
ghost use Rattle.shared_pool.specs.Calls.{AreBoundsOf, IsCentreSeen, IsFound, TriesReturn};
ghost use Rattle.shared_pool.specs.Desks.{IsDeskOf, view};

use crate::desk::Desk;
use crate::plays::GiveAfterReturn;
use crate::rule::Words;
use crate::shared::SharedPool;
use crate::view::View;
use atomic_table::Seat;
use pool_core::{Bounds, Given, Lease, Pool, Verdict};

/// What a try to give a lease back answers.
#[derive(Clone, Copy, Debug, PartialEq, Eq)]
pub enum TryReturn {
    /// Another desk had the turn. Nothing changed, and the desk still has its lease.
    Busy,
    /// The lease was taken back, and what became of its square.
    Taken(Given),
}

impl SharedPool {
    /// Gives the lease of a desk back with the verdict on it, where the turn is free. The desk has
    /// looked or offered since it got the lease, and the verdict is the one for what it has seen.
    /// Where the square is to be split and has a centre site, what was seen is at most the upper
    /// cost of that. It takes no memory, and waits for nobody.
    pub fn try_return(&self, desk: &mut Desk, verdict: Verdict) -> TryReturn
        requires desk { IsDeskOf self.now desk.old }
        requires lease { IsSome (view desk.old).lease }
        requires fresh { (view desk.old).fresh ≡ true }
        requires seen { verdict.seen ≡ (view desk.old).seen }
        requires finding { IsFound (view desk.old) verdict.seen verdict.finding }
        requires centre { IsCentreSeen (view desk.old) verdict.seen verdict.finding }
        ensures answer { TriesReturn result (view desk.old) (view desk.new) }
        ensures desk { IsDeskOf self.now desk.new }
    {
        self.try_return_with(desk, None, verdict)
    }

    /// Gives the lease of a desk back as `try_return` does, from one who knows the bounds of its
    /// square.
    pub fn try_return_by(&self, desk: &mut Desk, bounds: Bounds, verdict: Verdict) -> TryReturn
        requires desk { IsDeskOf self.now desk.old }
        requires lease { IsSome (view desk.old).lease }
        requires fresh { (view desk.old).fresh ≡ true }
        requires seen { verdict.seen ≡ (view desk.old).seen }
        requires bounds { AreBoundsOf (view desk.old) bounds }
        requires finding { IsFound (view desk.old) verdict.seen verdict.finding }
        requires centre { IsCentreSeen (view desk.old) verdict.seen verdict.finding }
        ensures answer { TriesReturn result (view desk.old) (view desk.new) }
        ensures desk { IsDeskOf self.now desk.new }
    {
        self.try_return_with(desk, Some(bounds), verdict)
    }

    /// Gives the lease of a desk back as `try_return` does, with the bounds of its square where
    /// they are known.
    fn try_return_with(
        &self,
        desk: &mut Desk,
        bounds: Option<Bounds>,
        verdict: Verdict,
    ) -> TryReturn
        requires desk { IsDeskOf self.now desk.old }
        requires lease { IsSome (view desk.old).lease }
        requires fresh { (view desk.old).fresh ≡ true }
        requires seen { verdict.seen ≡ (view desk.old).seen }
        requires bounds { MatchOption bounds ⊤ (AreBoundsOf (view desk.old)) }
        requires finding { IsFound (view desk.old) verdict.seen verdict.finding }
        requires centre { IsCentreSeen (view desk.old) verdict.seen verdict.finding }
        ensures answer { TriesReturn result (view desk.old) (view desk.new) }
        ensures desk { IsDeskOf self.now desk.new }
    {
        if !self.take_turn(&mut desk.seat) {
            return TryReturn::Busy;
        }
        match desk.lease.take() {
            None => unreachable!(),
            Some(lease) => {
                let given = give_back_to(
                    &self.table.shared,
                    &mut desk.seat,
                    lease,
                    bounds,
                    verdict,
                );
                self.table
                    .shared
                    .store::<GiveAfterReturn>(&mut desk.seat, 1, 0);
                TryReturn::Taken(given)
            }
        }
    }
}

/// Gives a lease back to the pool that a seat holds, with the bounds of its square where they are
/// known.
fn give_back_to(
    words: &Words,
    seat: &mut Seat<Pool, View>,
    lease: Lease,
    bounds: Option<Bounds>,
    verdict: Verdict,
) -> Given
    requires seat { seat.old.table_id ≡ words.now.table_id }
    requires pool { (pool : states.State) × (seat.old.me.1 ≡ (0, pool) ∷ [])
        × Contains pool.leased lease
        × (verdict.finding ≡ finding_of pool.job lease verdict.seen)
        × MatchOption bounds ⊤ (λ known. known ≡ bounds_of pool.job lease) }
    ensures returned { (before : states.State) × (after : states.State)
        × (seat.old.me.1 ≡ (0, before) ∷ []) × (seat.new.me.1 ≡ (0, after) ∷ [])
        × Returns lease verdict.seen verdict.finding before after
        × (result ≡ given_of before verdict.finding) }
    ensures same { (seat.new.table_id ≡ seat.old.table_id) × (seat.new.id ≡ seat.old.id)
        × (seat.new.me.0 ≡ seat.old.me.0) }
{
    let pool = seat.slot_mut(words, 0);
    match bounds {
        Some(bounds) => pool.give_back_by(lease, bounds, verdict),
        None => pool.give_back(lease, verdict),
    }
}
