//! Leasing a square.

ghost use Rattle.std.specs.Prelude.{◌≡◌, true, false, [], ◌∷◌, None};
ghost use Rattle.pool_core.specs.State as states;
ghost use Rattle.std.specs.Option.{ForSome};
ghost use Rattle.pool_core.specs.PoolAnswers.{LeaseAnswers};
ghost use Rattle.pool_core.specs.Sound.{EntryFits};
ghost use Rattle.shared_pool.specs.declared.view.Role.TheVariants as roles;
ghost use Rattle.shared_pool.specs.Views.{view_after_lease, view_after_loss};
ghost use Rattle.shared_pool.specs.Runs.{AddsAnswer};
ghost use Rattle.shared_pool.specs.Steps.{IsAtRest, Wins};
ghost use Rattle.shared_pool.specs.Calls.{TriesLease};
ghost use Rattle.shared_pool.specs.Desks.{IsDeskOf, view};

use crate::desk::Desk;
use crate::plays::{Answered, GiveAfterLease, Take};
use crate::rule::Words;
use crate::shared::SharedPool;
use crate::view::View;
use atomic_table::Seat;
use pool_core::{LeaseAnswer, Pool, Stop};
use std::marker::Brand;

/// What a try for a lease answers.
#[derive(Clone, Copy, Debug, PartialEq, Eq)]
pub enum TryLease {
    /// Another desk had the turn. Nothing changed.
    Busy,
    /// There is a stop, or the budget is spent while something waits, which is a stop from now on.
    Stopped(Stop),
    /// No square is open.
    Done,
    /// Nothing waits, and something is leased.
    Idle,
    /// The desk has a lease: a waiting square of least bound.
    Got,
}

impl SharedPool {
    /// Leases a square for a desk that has none, where the turn is free. The bound of the square is
    /// at most its fine bound; a raised one is equal to it, and its square isn't excluded. It takes
    /// no memory, and waits for nobody.
    pub fn try_lease(&self, desk: &mut Desk) -> TryLease
        requires desk { IsDeskOf self.now desk.old }
        requires lease { (view desk.old).lease ≡ None }
        ensures answer { TriesLease result (view desk.old) (view desk.new) }
        ensures fits { ForSome (view desk.new).lease
            (EntryFits (view desk.old).first.job.instance) }
        ensures desk { IsDeskOf self.now desk.new }
    {
        if !self.take_turn(&mut desk.seat) {
            return TryLease::Busy;
        }
        let answer = lease_from(&self.table.shared, &mut desk.seat);
        self.give_after_lease::<Brand>(&mut desk.seat, &answer);
        match answer {
            LeaseAnswer::Stopped(stop) => TryLease::Stopped(stop),
            LeaseAnswer::Done => TryLease::Done,
            LeaseAnswer::Idle => TryLease::Idle,
            LeaseAnswer::Leased(lease) => {
                desk.lease = Some(lease);
                desk.fresh = false;
                TryLease::Got
            }
        }
    }

    /// Takes the turn, with the pool, where it is free, and says whether it was.
    pub(crate) fn take_turn(&self, seat: &mut Seat<Pool, View>) -> bool
        requires seat { seat.old.table_id ≡ self.now.table.shared.table_id }
        requires rests { IsAtRest roles.Desk seat.old.me }
        ensures won { result ≡ true → Wins seat.old.me seat.new.me }
        ensures lost { result ≡ false → seat.new.me ≡ (view_after_loss seat.old.me.0, []) }
        ensures same { (seat.new.table_id ≡ seat.old.table_id) × (seat.new.id ≡ seat.old.id) }
    {
        self.table.shared.swap::<Take>(seat, 1, 1) == 0
    }

    /// Gives the turn, with the pool as it is after this answer.
    fn give_after_lease<A: Answered>(&self, seat: &mut Seat<Pool, View>, answer: &LeaseAnswer)
        requires seat { seat.old.table_id ≡ self.now.table.shared.table_id }
        requires role { (seat.old.me.0.role ≡ roles.Desk) × (seat.old.me.0.has_turn ≡ true) }
        requires lease { seat.old.me.0.lease ≡ None }
        requires told { A.answer ≡ answer.now }
        requires pool { (pool : states.State) × (seat.old.me.1 ≡ (0, pool) ∷ [])
            × LeaseAnswers answer.now seat.old.me.0.taken pool }
        ensures given { (pool : states.State) → seat.old.me.1 ≡ (0, pool) ∷ []
            → (seat.new.me ≡ (view_after_lease seat.old.me.0 seat.new.me.0.deeds answer.now pool, []))
            × AddsAnswer answer.now seat.old.me.0 seat.new.me.0 }
        ensures same { (seat.new.table_id ≡ seat.old.table_id) × (seat.new.id ≡ seat.old.id) }
    {
        self.table.shared.store::<GiveAfterLease<A>>(seat, 1, 0);
    }
}

/// A lease from the pool that a seat holds.
fn lease_from(words: &Words, seat: &mut Seat<Pool, View>) -> LeaseAnswer
    requires seat { seat.old.table_id ≡ words.now.table_id }
    requires pool { (pool : states.State) × (seat.old.me.1 ≡ (0, pool) ∷ []) }
    ensures answer { (before : states.State) × (after : states.State)
        × (seat.old.me.1 ≡ (0, before) ∷ []) × (seat.new.me.1 ≡ (0, after) ∷ [])
        × LeaseAnswers result before after }
    ensures same { (seat.new.table_id ≡ seat.old.table_id) × (seat.new.id ≡ seat.old.id)
        × (seat.new.me.0 ≡ seat.old.me.0) }
{
    let pool = seat.slot_mut(words, 0);
    pool.lease()
}
