//! How steep the cost is.

ghost use Rattle.std.specs.Prelude.{◌≡◌, ◌≤◌};
ghost use Rattle.siting_definitions.specs.declared.TheConstants.{WEIGHT_LIMIT};
ghost use Rattle.objectives.specs.Steepness.{heaviest, steepness_of};

use site_model::{DemandPt, Instance, Kind};

/// By how many cost units the costs of two points a grid unit apart differ at most: the sum of the
/// weights' sizes, or their greatest where the cost is the greatest term.
pub fn steepness(instance: &Instance) -> u64
    ensures value { result ≡ steepness_of instance.now }
    ensures size { result ≤ WEIGHT_LIMIT }
{
    let points = instance.points();
    match instance.kind() {
        Kind::Sum => instance.weight().unsigned_abs(),
        Kind::Max => heaviest(points),
    }
}

/// The greatest of the weights' sizes, and 0 of no points.
fn heaviest(points: &[DemandPt]) -> u64
    ensures { result ≡ heaviest points.now }
{
    let mut most = 0;
    for point in points {
        let point = *point;
        most = point.w.unsigned_abs().max(most);
    }
    most
}
