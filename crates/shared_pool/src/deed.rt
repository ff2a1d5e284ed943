//! What the desks have done on the table so far, as contracts see it.

use pool_core::Pool;
use std::marker::Model;

/// A step of a desk on what the table shows: a look, an offer, or a give of the turn. No value of it
/// is made: contracts alone see it.
pub struct Deed {
    /// The seat of the desk that made it.
    pub seat: u64,
    /// The pool that the table shows after it.
    pub pool: Pool,
    /// The incumbent after it, in cost units, if there is one.
    pub incumbent: Option<i64>,
}

/// Deeds, the newest first.
pub struct Deeds {
    list: Vec<Deed>,
}

impl Model for Deeds {
    ghost use Rattle.std.specs.Prelude.{List};
    ghost use Rattle.shared_pool.specs.declared.deed.Deed.{Deed};

    ghost Value = { List Deed };

    ghost view = { λ a. a.list.items };
}

/// A desk that was taken in. No value of it is made.
pub struct Past {
    /// Its seat.
    pub seat: u64,
    /// All deeds up to its last one.
    pub deeds: Deeds,
}

/// Desks that were taken in, the last one first.
pub struct Pasts {
    list: Vec<Past>,
}

impl Model for Pasts {
    ghost use Rattle.std.specs.Prelude.{List};
    ghost use Rattle.shared_pool.specs.declared.deed.Past.{Past};

    ghost Value = { List Past };

    ghost view = { λ a. a.list.items };
}
