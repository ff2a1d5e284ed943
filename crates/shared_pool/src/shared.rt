//! The shared pool, from its beginning to its end.

ghost use Rattle.std.specs.Prelude.{◌≡◌, pos, ◌-◌, ◌^◌, ◌<ℤ◌, true, [], length, IfOk, MatchOption, ⊤};
ghost use Rattle.std.specs.Option.{ForSome};
ghost use Rattle.incumbent_word.specs.Word.{number_in};
ghost use Rattle.pool_core.specs.Job.{IsOffer, cost_in};
ghost use Rattle.pool_core.specs.Sound.{IsFinished, IsPoolOf};
ghost use Rattle.pool_core.specs.Seats.{IsKeptBy};
ghost use Rattle.shared_pool.specs.Views.{first_view};
ghost use Rattle.shared_pool.specs.Runs.{IsEndOf};
ghost use Rattle.shared_pool.specs.TableFits.{IsLast, IsReached};

use crate::desk::RootDesk;
use crate::rule::PoolRule;
use crate::view::View;
use atomic_table::Table;
use incumbent_word::{NONE, to_word};
use pool_core::{Closed, Job, Pool, cost_in};
use std::alloc::Global;
use std::snapshot::Snapshot;

/// Memory ran out for the table of a shared pool.
#[derive(Clone, Copy, Debug, PartialEq, Eq)]
pub struct NoMemory;

/// A pool that desks share, with the incumbent.
#[derive(Drop)]
pub struct SharedPool {
    pub(crate) table: Table<Pool, View, Snapshot<Pool>, PoolRule, Global>,
    pub(crate) ghost counts: { (table.shared.table_id.words ≡ 2)
        × (table.shared.table_id.slots ≡ 1) },
}

impl SharedPool {
    ghost use Rattle.shared_pool.specs.Desks.{IsRootOf, first_pool, key, root_view};

    /// Shares a pool of the job of which nothing is leased. The incumbent is the start's number,
    /// the turn is free, and no desk is out; `NoMemory` where memory ran out for the table, and the
    /// pool is given up.
    pub fn begin(alloc: Global, job: &Job, pool: Pool) -> Result<(SharedPool, RootDesk), NoMemory>
        requires { IsPoolOf job.now pool }
        ensures pool { IfOk result (λ made. first_pool made.0 ≡ pool) }
        ensures root { IfOk result (λ made. root_view made.1 ≡ first_view pool) }
        ensures root_of { IfOk result (λ made. IsRootOf made.0 made.1) }
    {
        let best = job.start;
        let seen = cost_in(&best);
        let word = word_in(seen);
        let about = Snapshot::of(&pool);
        let Ok(slots) = Vec::from_array(alloc, [pool]) else {
            return Err(NoMemory);
        };
        let Ok((table, seat)) = Table::new(alloc, &[word, 0], slots, &about) else {
            return Err(NoMemory);
        };
        Ok((SharedPool { table }, RootDesk { seat, seen, best }))
    }

    /// Ends the sharing. The root desk is of this shared pool, and no desk is out. The best is the
    /// root desk's: the best of the start and of all that was offered.
    pub fn close(self, root: RootDesk) -> Closed
        requires root { IsRootOf self root }
        requires out { (root_view root).out ≡ 0 }
        ensures best { result.best ≡ (root_view root).best }
        ensures last { IsLast (key self) result.pool result.best }
        ensures run { IsReached (first_pool self) (cost_in result.best) result.pool }
        ensures end { IsEndOf (first_pool self) (root_view root).pasts result.pool
            (cost_in result.best) }
        ensures seats { length (root_view root).pasts ≡ (root_view root).seats }
        ensures offer { MatchOption result.best ⊤
            (λ b. IsOffer (first_pool self).job.instance b.0 b.1) }
        ensures job { result.pool.job ≡ (first_pool self).job }
        ensures beginning { result.pool.beginning ≡ (first_pool self).beginning }
        ensures leased { result.pool.leased ≡ [] }
        ensures finished { (root_view root).ended ≡ true
            → IsFinished (first_pool self).job result.pool result.best }
        ensures kept { IsKeptBy result.pool (root_view root).seats }
    {
        let RootDesk {
            seat,
            seen: _,
            best,
        } = root;
        let mut closed = self.table.close_with(seat);
        let pool = closed.take(0);
        closed.free();
        Closed { pool, best }
    }
}

/// The word of a number, if there is one.
fn word_in(number: Option<i64>) -> u64
    requires { ForSome number (λ z. z <ℤ pos (2 ^ 63 - 1)) }
    ensures { number_in result ≡ number }
{
    match number {
        None => NONE,
        Some(number) => to_word(number),
    }
}
