//! Looking at the incumbent, and offering a site.

ghost use Rattle.std.specs.Prelude.{◌≡◌, ℤ, Option, Some};
ghost use Rattle.siting_definitions.specs.Marks.{lesser};
ghost use Rattle.pool_core.specs.Job.{IsOffer};
ghost use Rattle.shared_pool.specs.Views.{view_after_look};
ghost use Rattle.shared_pool.specs.Runs.{AddsLook};
ghost use Rattle.shared_pool.specs.Steps.{IsIncumbentAfter, IsOffered};
ghost use Rattle.shared_pool.specs.Desks.{IsDeskOf, view};

use crate::desk::Desk;
use crate::plays::{Look, Offer, Offered};
use crate::shared::SharedPool;
use incumbent_word::{from_word, to_word};
use pool_core::better_of;
use site_model::Site;
use std::marker::Brand;

impl SharedPool {
    /// The incumbent at this call's load, in cost units, if there is one.
    pub fn look(&self, desk: &mut Desk) -> Option<i64>
        requires { IsDeskOf self.now desk.old }
        ensures incumbent { IsIncumbentAfter (view desk.old) result }
        ensures view { view desk.new ≡ view_after_look (view desk.old) (view desk.new).deeds result }
        ensures run { AddsLook result (view desk.old) (view desk.new) }
        ensures desk { IsDeskOf self.now desk.new }
    {
        let word = self.table.shared.load::<Look>(&mut desk.seat, 0);
        desk.seen = from_word(word);
        desk.fresh = true;
        desk.seen
    }

    /// Offers a permitted site with its upper cost, in cost units. It answers the lesser of that
    /// and the incumbent at this call's exchange.
    pub fn offer(&self, desk: &mut Desk, site: Site, upper: i64) -> i64
        requires desk { IsDeskOf self.now desk.old }
        requires offer { IsOffer (view desk.old).first.job.instance site upper }
        ensures incumbent { (u : Option ℤ) × (Some result ≡ lesser u (Some upper))
            × IsOffered u site upper (view desk.old) (view desk.new) }
        ensures desk { IsDeskOf self.now desk.new }
    {
        self.offer_as::<Brand>(desk, site, upper)
    }

    /// The offer, told which site it is.
    fn offer_as<O: Offered>(&self, desk: &mut Desk, site: Site, upper: i64) -> i64
        requires desk { IsDeskOf self.now desk.old }
        requires offer { IsOffer (view desk.old).first.job.instance site upper }
        requires told { (O.site ≡ site) × (O.upper ≡ upper) }
        ensures incumbent { (u : Option ℤ) × (Some result ≡ lesser u (Some upper))
            × IsOffered u site upper (view desk.old) (view desk.new) }
        ensures desk { IsDeskOf self.now desk.new }
    {
        let word = to_word(upper);
        let found = self
            .table
            .shared
            .fetch_min::<Offer<O>>(&mut desk.seat, 0, word);
        let least = lesser(from_word(found), upper);
        desk.seen = Some(least);
        desk.best = better_of(&desk.best, &Some((site, upper)));
        desk.fresh = true;
        least
    }
}

/// The lesser of the incumbent and an upper cost, in cost units.
fn lesser(incumbent: Option<i64>, upper: i64) -> i64
    ensures { Some result ≡ lesser incumbent (Some upper) }
{
    match incumbent {
        None => upper,
        Some(number) => number.min(upper),
    }
}
