//! Making an instance.

ghost use Rattle.std.specs.Prelude.{◌≡◌, ◌≤◌, IfOk};
ghost use Rattle.siting_definitions.specs.declared.TheConstants.{SEED_LIMIT};
ghost use Rattle.siting_definitions.specs.declared.TheConstants.{POINT_LIMIT};
ghost use Rattle.case_maker.specs.Made as cases;
ghost use Rattle.case_maker.specs.Made.{made};

use crate::memory::NoMemory;
use crate::points::make_points;
use crate::square::one_square;
use site_model::{DemandPt, Instance, Kind};
use std::alloc::{AllocError, Global};

/// The instance that a seed of at most 2,147,483,647 makes, with 1 to 4,096 demand points: their
/// coordinates are 0 to 98,301 lengths and their weights 1 to 1,000. The square from (0, 0) to
/// (100000, 100000) is permitted, and the one from (40000, 40000) to (60000, 60000) forbidden, in
/// lengths. `NoMemory` where memory ran out.
#[tactic(auto, unfolding(crate::specs::Made::made))]
pub fn make_instance(alloc: Global, seed: u32, points: u32) -> Result<Instance, NoMemory>
    requires seed { seed ≤ SEED_LIMIT }
    requires few { 1 ≤ points }
    requires many { points ≤ POINT_LIMIT }
    ensures { IfOk result (λ i. i ≡ made seed points) }
{
    let points = make_points(alloc, seed, points)?;
    let permitted = one_square(alloc, 0, 100000)?;
    let forbidden = one_square(alloc, 40000, 60000)?;
    Ok(Instance::build(Kind::Sum, points, permitted, forbidden))
}

/// A small instance for tests: one town of weight 1 at (2, 2), and the square from (0, 0) to (4, 4)
/// permitted, in lengths. `NoMemory` where memory ran out.
#[tactic(auto, unfolding(crate::specs::Made::one_town, siting_definitions::specs::Instance::weight))]
pub fn one_town(alloc: Global) -> Result<Instance, NoMemory>
    ensures { IfOk result (λ i. i ≡ cases.one_town) }
{
    let town = DemandPt::of(2, 2, 1, None);
    let points = Vec::from_array(alloc, [town]).map_err(AllocError::from)?;
    let permitted = one_square(alloc, 0, 4)?;
    Ok(Instance::build(Kind::Sum, points, permitted, Vec::new(alloc)))
}
