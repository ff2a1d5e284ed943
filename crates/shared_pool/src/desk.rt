//! Desks, with which workers step on the table, and the root desk, which seats them out and takes
//! them in.

ghost use Rattle.std.specs.Prelude.{◌≡◌, None, option_copied};
ghost use Rattle.shared_pool.specs.declared.view.Role.TheVariants as roles;
ghost use Rattle.shared_pool.specs.Views.{root_after_joining, root_after_seating, seated_view};
ghost use Rattle.shared_pool.specs.Steps.{HasSmallCosts, IsAtRest};

use crate::plays::{SeatOut, TakeIn};
use crate::shared::SharedPool;
use crate::view::View;
use atomic_table::Seat;
use pool_core::{Lease, Pool, better_of};
use site_model::Site;

/// What a worker steps with. It has a lease at most, and the best of what it offered.
#[derive(Drop)]
pub struct Desk {
    pub(crate) seat: Seat<Pool, View>,
    pub(crate) lease: Option<Lease>,
    pub(crate) seen: Option<i64>,
    pub(crate) best: Option<(Site, i64)>,
    pub(crate) fresh: bool,
    pub(crate) ghost rests: { IsAtRest roles.Desk seat.me },
    pub(crate) ghost shown_lease: { lease ≡ seat.me.0.lease },
    pub(crate) ghost shown_seen: { seen ≡ seat.me.0.seen },
    pub(crate) ghost shown_best: { best ≡ seat.me.0.best },
    pub(crate) ghost shown_fresh: { fresh ≡ seat.me.0.fresh },
    pub(crate) ghost costs: { HasSmallCosts seat.me.0.first.job.instance },
}

/// The desk that seats the others out and takes them in.
#[derive(Drop)]
pub struct RootDesk {
    pub(crate) seat: Seat<Pool, View>,
    pub(crate) seen: Option<i64>,
    pub(crate) best: Option<(Site, i64)>,
    pub(crate) ghost first: { seat.id ≡ 0 },
    pub(crate) ghost rests: { IsAtRest roles.Root seat.me },
    pub(crate) ghost shown_seen: { seen ≡ seat.me.0.seen },
    pub(crate) ghost shown_best: { best ≡ seat.me.0.best },
    pub(crate) ghost costs: { HasSmallCosts seat.me.0.first.job.instance },
}

impl Desk {
    ghost use Rattle.shared_pool.specs.Desks.{view};

    /// The last number of the incumbent that was given to it, in cost units, if there was one. It
    /// never rises.
    pub fn seen(&self) -> Option<i64>
        ensures { result ≡ (view self.now).seen }
    {
        self.seen
    }

    /// Its own least offer: a site with its upper cost, in cost units.
    pub fn best(&self) -> Option<(Site, i64)>
        ensures { result ≡ (view self.now).best }
    {
        self.best
    }

    /// The lease that it has, if it has one.
    pub fn lease(&self) -> Option<&Lease>
        ensures { option_copied result ≡ (view self.now).lease }
    {
        self.lease.as_ref()
    }

    /// Whether it looked or offered since its last lease was got, or since it was seated out.
    pub fn fresh(&self) -> bool
        ensures { result ≡ (view self.now).fresh }
    {
        self.fresh
    }
}

impl RootDesk {
    ghost use Rattle.shared_pool.specs.Desks.{IsDeskOf, IsRootOf, root_view, view};

    /// Seats a desk out. It has seen what the root desk has.
    pub fn seat_out(&mut self, shared: &SharedPool) -> Desk
        requires { IsRootOf shared.now self.old }
        ensures desk { view result ≡ seated_view (root_view self.old) }
        ensures desk_of { IsDeskOf shared.now result }
        ensures root { root_view self.new ≡ root_after_seating (root_view self.old) }
        ensures root_of { IsRootOf shared.now self.new }
    {
        let seat = shared.table.shared.split_seat::<SeatOut>(&mut self.seat);
        Desk {
            seat,
            lease: None,
            seen: self.seen,
            best: None,
            fresh: false,
        }
    }

    /// Takes in a desk that it seated out, which has no lease. The better offer stays, the root
    /// desk's own at a tie.
    pub fn take_in(&mut self, shared: &SharedPool, desk: Desk)
        requires root { IsRootOf shared.now self.old }
        requires desk { IsDeskOf shared.now desk }
        requires lease { (view desk).lease ≡ None }
        ensures root { root_view self.new ≡ root_after_joining (root_view self.old) (view desk) }
        ensures root_of { IsRootOf shared.now self.new }
    {
        let Desk {
            seat,
            lease: _,
            seen: _,
            best,
            fresh: _,
        } = desk;
        shared
            .table
            .shared
            .join_seat::<TakeIn>(&mut self.seat, seat);
        self.best = better_of(&self.best, &best);
    }
}
