//! The steps on the table, each with what it tells the desk that makes it.

ghost use Rattle.std.specs.Prelude.{ℤ, pos};
ghost use Rattle.siting_definitions.specs.Point.{Pt};
ghost use Rattle.pool_core.specs.declared.lease.LeaseAnswer as answers;
ghost use Rattle.pool_core.specs.declared.lease.LeaseAnswer.TheVariants.{Idle};
ghost use Rattle.shared_pool.specs.Views.{root_after_joining, root_after_seating, seated_view};
ghost use Rattle.shared_pool.specs.Views.{spent_view};
ghost use Rattle.shared_pool.specs.Steps.{told_by_lease, told_by_look, told_by_offer};
ghost use Rattle.shared_pool.specs.Steps.{told_by_return, told_by_take};

use crate::view::View;
use atomic_table::{Join, Play, Split};
use pool_core::Pool;
use std::marker::{Brand, PhantomData};

/// A load of the incumbent.
pub(crate) struct Look;

impl Play<Pool, View> for Look {
    ghost then = { told_by_look };
}

/// A site that is offered, with its upper cost.
pub(crate) trait Offered {
    ghost site: { Pt };

    ghost upper: { ℤ };
}

impl Offered for Brand {
    ghost site = { record { x = pos 0; y = pos 0 } };

    ghost upper = { pos 0 };
}

/// A least-value exchange on the incumbent, by the word of an upper cost.
pub(crate) struct Offer<O> {
    marker: PhantomData<O>,
}

impl<O: Offered> Play<Pool, View> for Offer<O> {
    ghost then = { told_by_offer O.site O.upper };
}

/// A take of the turn.
pub(crate) struct Take;

impl Play<Pool, View> for Take {
    ghost then = { told_by_take };
}

/// What a pool answered to one who asked for a lease.
pub(crate) trait Answered {
    ghost answer: { answers.LeaseAnswer };
}

impl Answered for Brand {
    ghost answer = { Idle };
}

/// A give of the turn, after the pool answered.
pub(crate) struct GiveAfterLease<A> {
    marker: PhantomData<A>,
}

impl<A: Answered> Play<Pool, View> for GiveAfterLease<A> {
    ghost then = { told_by_lease A.answer };
}

/// A give of the turn, after the lease came back.
pub(crate) struct GiveAfterReturn;

impl Play<Pool, View> for GiveAfterReturn {
    ghost then = { told_by_return };
}

/// The root desk seats a desk out.
pub(crate) struct SeatOut;

impl Split<View> for SeatOut {
    ghost left = { root_after_seating };

    ghost right = { seated_view };
}

/// The root desk takes a desk in.
pub(crate) struct TakeIn;

impl Join<View> for TakeIn {
    ghost both = { root_after_joining };

    ghost spent = { spent_view };
}
