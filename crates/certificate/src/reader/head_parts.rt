//! The parts of a head.

use site_model::Site;
use siting_definitions::Word;
use std::marker::Model;

/// The gap, the budget and the pool.
#[derive(Drop)]
pub(super) struct Limits {
    /// The gap, in cost units, 0 to 2^62.
    pub(super) gap: i64,
    /// The budget, 0 to 1,000,000.
    pub(super) budget: u32,
    /// The pool, 1 to 1,000,000.
    pub(super) pool: u32,
}

impl Model for Limits {
    ghost use Rattle.std.specs.Prelude.{pos, ◌≤ℤ◌, ◌≤◌};
    ghost use Rattle.siting_definitions.specs.declared.TheConstants.{GAP_LIMIT, BUDGET_LIMIT};
    ghost use Rattle.siting_definitions.specs.declared.TheConstants.{POOL_LIMIT};
    ghost use Rattle.certificate.specs.HeadReading as heads;

    ghost Value = { heads.Limits };

    ghost view = { λ l. record { gap = l.gap; budget = l.budget; pool = l.pool } };

    ghost invariant = { λ l. (pos 0 ≤ℤ l.gap) × (l.gap ≤ℤ pos GAP_LIMIT)
        × (l.budget ≤ BUDGET_LIMIT) × (1 ≤ l.pool) × (l.pool ≤ POOL_LIMIT) };
}

/// The site with its costs, if there is one.
#[derive(Drop)]
pub(super) struct Priced {
    /// The site.
    pub(super) site: Option<Site>,
    /// The lower and the upper cost, in cost units.
    pub(super) cost: Option<(i64, i64)>,
}

impl Model for Priced {
    ghost use Rattle.std.specs.Prelude.{◌≡◌, Option, is_some};
    ghost use Rattle.siting_definitions.specs.Answer.{Best};
    ghost use Rattle.answer_model.specs.Head.{best_of};

    ghost Value = { Option Best };

    ghost view = { λ p. best_of p.site p.cost };

    ghost invariant = { λ p. is_some p.cost ≡ is_some p.site };
}

/// The bound, the word, the open squares and the leases.
#[derive(Drop)]
pub(super) struct Outcome {
    /// The bound, in cost units, if there is one.
    pub(super) bound: Option<i64>,
    /// How the answer ended.
    pub(super) word: Word,
    /// The open squares, 0 to 1,000,000.
    pub(super) open_count: u32,
    /// The leases, 0 to 1,000,000.
    pub(super) leases: u32,
}

impl Model for Outcome {
    ghost use Rattle.std.specs.Prelude.{◌≤◌};
    ghost use Rattle.siting_definitions.specs.declared.TheConstants.{BUDGET_LIMIT, POOL_LIMIT};
    ghost use Rattle.certificate.specs.HeadReading as heads;

    ghost Value = { heads.Outcome };

    ghost view = { λ o. record {
      bound = o.bound;
      word = o.word;
      open_count = o.open_count;
      leases = o.leases;
    } };

    ghost invariant = { λ o. (o.open_count ≤ POOL_LIMIT) × (o.leases ≤ BUDGET_LIMIT) };
}
