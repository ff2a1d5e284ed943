//! The search by one worker.

ghost use Rattle.std.specs.Prelude.{◌≡◌, if◌then◌else◌, Contains, MatchOption, ⊤};
ghost use Rattle.pool_core.specs.Best as bests;
ghost use Rattle.pool_core.specs.Best.{IsImproved};
ghost use Rattle.pool_core.specs.Job as jobs;
ghost use Rattle.pool_core.specs.Job.{IsOffer};
ghost use Rattle.pool_core.specs.Verdict as verdicts;
ghost use Rattle.pool_core.specs.Verdict.{finding_of};
ghost use Rattle.pool_core.specs.Machine.{Returns};
ghost use Rattle.pool_core.specs.Sound.{EntryFits, IsFinished, IsPoolOf};
ghost use Rattle.pool_core.specs.Seats.{IsKeptBy, is_full};
ghost use Rattle.site_workers.specs.Search.{SearchEnds, centre_offer};

use crate::centre::may_be_cheaper;
use candidate_sites::centre_site;
use pool_core::{
    Bounds, Closed, Job, Lease, LeaseAnswer, Pool, better_of, bounds_of, cost_in, judge_by,
};
use site_model::Site;

/// One worker: leases squares, offers the centre site of each where that may be cheaper than the
/// best site, judges it and gives it back, until nothing is open or there is a stop.
///
/// It always returns, within the leases that the budget leaves, and takes no memory. Of two sites
/// that cost the same the one that came first stays, the start before all others.
pub fn alone(job: &Job, pool: Pool) -> Closed
    requires { IsPoolOf job.now pool }
    ensures finished { IsFinished job.now result.pool result.best }
    ensures searched { SearchEnds pool job.now.start result.pool result.best }
    ensures beginning { result.pool.beginning ≡ pool.beginning }
    ensures improved { IsImproved job.now.start result.best }
    ensures kept { result.pool.kept ≡ (if is_full result.pool.stop then 1 else 0) }
    ensures seats { IsKeptBy result.pool 1 }
{
    let mut pool = pool;
    let mut best = job.start;
    loop {
        match pool.lease() {
            LeaseAnswer::Leased(lease) => best = work(job, &mut pool, lease, &best),
            LeaseAnswer::Stopped(_) => return Closed { pool, best },
            LeaseAnswer::Done => return Closed { pool, best },
            LeaseAnswer::Idle => return Closed { pool, best },
        }
    }
}

/// Offers the centre site of a leased square, where that may be cheaper than the best site, judges
/// the square with the best site's cost, and gives it back. The best site, or the centre site where
/// that costs less.
fn work(job: &Job, pool: &mut Pool, lease: Lease, best: &Option<(Site, i64)>) -> Option<(Site, i64)>
    requires job { pool.old.job ≡ job.now }
    requires leased { Contains pool.old.leased lease }
    requires fits { EntryFits job.now.instance lease }
    ensures best { result ≡ bests.better_of best.now (centre_offer job.now.instance lease.square) }
    ensures offer { MatchOption (centre_offer job.now.instance lease.square) ⊤
        (λ o. IsOffer job.now.instance o.0 o.1) }
    ensures returned { let seen = jobs.cost_in result in
        Returns lease seen (finding_of job.now lease seen) pool.old pool.new }
{
    let bounds = bounds_of(job, &lease);
    let best = best_after(job, &lease, bounds, best);
    let verdict = judge_by(job, &lease, bounds, cost_in(&best));
    pool.give_back_by(lease, bounds, verdict);
    best
}

/// The best site, or the centre site of a leased square with these bounds where that costs less.
fn best_after(
    job: &Job,
    lease: &Lease,
    bounds: Bounds,
    best: &Option<(Site, i64)>,
) -> Option<(Site, i64)>
    requires fits { EntryFits job.now.instance lease.now }
    requires bounds { bounds ≡ verdicts.bounds_of job.now lease.now }
    ensures best { result
        ≡ bests.better_of best.now (centre_offer job.now.instance lease.now.square) }
    ensures offer { MatchOption (centre_offer job.now.instance lease.now.square) ⊤
        (λ o. IsOffer job.now.instance o.0 o.1) }
{
    let instance = &job.instance;
    let square = lease.square();
    // Shows that the square is within the limits.
    let _side = square.side_len();
    if !may_be_cheaper(bounds, cost_in(best)) {
        return *best;
    }
    let offered = centre_site(instance, square);
    better_of(best, &offered)
}
