//! The best site of a search.

ghost use Rattle.std.specs.Prelude.{◌≡◌};
ghost use Rattle.pool_core.specs.Best as bests;
ghost use Rattle.pool_core.specs.Job as jobs;

use site_model::Site;

/// The upper cost of a site that comes with it, in cost units, if there is one.
pub fn cost_in(best: &Option<(Site, i64)>) -> Option<i64>
    ensures { result ≡ jobs.cost_in best.now }
{
    match *best {
        None => None,
        Some((_, upper)) => Some(upper),
    }
}

/// The better of the best site and one that is offered, each with its upper cost, in cost units.
/// The best stays where the other doesn't cost less.
pub fn better_of(best: &Option<(Site, i64)>, offered: &Option<(Site, i64)>) -> Option<(Site, i64)>
    ensures { result ≡ bests.better_of best.now offered.now }
{
    match (*best, *offered) {
        (best, None) => best,
        (None, offered) => offered,
        (Some(best), Some(offered)) => Some(if offered.1 < best.1 { offered } else { best }),
    }
}
