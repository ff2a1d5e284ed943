//! Entries as the heap ranks them.

ghost use Rattle.std.proofs.Common.{rules};
ghost use Rattle.std.specs.Cmp.{partial_order_from_own_ties};
ghost use Rattle.std.specs.Cmp.Rules.{comparing};
ghost use Rattle.std.specs.Ordering.{as_partial_cmp, flip_args, int_cmp, int_eq, on};

use crate::entry::Entry;
use std::cmp::Ordering;

/// An entry, ranked by its bound alone: the lesser the bound, the higher the rank.
#[derive(Clone, Copy, Drop)]
pub struct Ranked {
    pub entry: Entry,
}

impl PartialEq for Ranked {
    ghost eq = { on (λ r. r.entry.bound) int_eq };

    ghost laws = { Prim.search (comparing, rules) };

    fn eq(&self, other: &Ranked) -> bool {
        self.entry.bound == other.entry.bound
    }
}

impl Eq for Ranked {
    ghost laws = { Prim.search (comparing, rules) };
}

impl PartialOrd for Ranked {
    ghost partial_cmp = { as_partial_cmp (flip_args (on (λ r. r.entry.bound) int_cmp)) };

    ghost laws = { partial_order_from_own_ties
        (Prim.search (comparing, rules))
        (Prim.search (comparing, rules)) };

    fn partial_cmp(&self, other: &Ranked) -> Option<Ordering> {
        Some(self.cmp(other))
    }
}

impl Ord for Ranked {
    ghost cmp = { flip_args (on (λ r. r.entry.bound) int_cmp) };

    ghost total = { Prim.search (comparing, rules) };

    ghost matches_partial_cmp = { Prim.search (comparing, rules) };

    ghost matches_eq = { Prim.search (comparing, rules) };

    fn cmp(&self, other: &Ranked) -> Ordering {
        other.entry.bound.cmp(&self.entry.bound)
    }
}
