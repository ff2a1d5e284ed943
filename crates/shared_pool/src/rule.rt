//! The rule of the table.

ghost use Rattle.shared_pool.specs.Views.{first_view};
ghost use Rattle.shared_pool.specs.TableFits.{TableFits};

use crate::view::View;
use atomic_table::{Shared, TableRule};
use pool_core::Pool;
use std::snapshot::Snapshot;

/// The rule, which every step keeps.
pub struct PoolRule;

impl TableRule<Pool, View, Snapshot<Pool>> for PoolRule {
    ghost holds = { λ about s. TableFits about s };

    ghost first = { λ about. first_view about.value };
}

/// The table as desks share it.
pub(crate) type Words = Shared<Pool, View, Snapshot<Pool>, PoolRule>;
