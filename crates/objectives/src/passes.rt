//! One pass over the points of an instance.

ghost use Rattle.std.specs.Prelude.{◌≡◌, ◌*◌, ◌≤◌, pos, unsigned_abs};
ghost use Rattle.std.specs.Prelude.{map, sum_by, fold, unwrap_or, None};
ghost use Rattle.siting_definitions.specs.Instance.{DemandPt};
ghost use Rattle.siting_definitions.specs.declared.TheConstants.{UNIT, WEIGHT_LIMIT};
ghost use Rattle.siting_definitions.specs.Cost.{total_of};
ghost use Rattle.dist_bounds.specs.Limits.{longest};
ghost use Rattle.objectives.specs.Totals.{joined_at};

use crate::radii::{Radii, TwoRadii};
use crate::total::{MaxTotal, SumTotal, Total};
use site_model::{DemandPt, Instance, Kind};

/// The total of an instance's weights times these radii.
pub(crate) fn total_of<R: Radii>(instance: &Instance, radii: &R) -> i128
    ensures value { result
        ≡ total_of instance.now (map (R.radius_of radii.now) instance.now.points) }
    ensures size { unsigned_abs result ≤ WEIGHT_LIMIT * R.limit }
{
    match instance.kind() {
        Kind::Sum => total_by::<SumTotal, R>(instance.points(), radii),
        Kind::Max => total_by::<MaxTotal, R>(instance.points(), radii),
    }
}

/// The total of weights times radii, joined one after another, and 0 of no points.
fn total_by<T: Total, R: Radii>(points: &[DemandPt], radii: &R) -> i128
    requires { sum_by (λ (d : DemandPt). unsigned_abs d.w) points.now ≤ WEIGHT_LIMIT }
    ensures value { result
        ≡ unwrap_or (fold (joined_at T.joined (R.radius_of radii.now)) None points.now) (pos 0) }
    ensures size { unsigned_abs result ≤ WEIGHT_LIMIT * R.limit }
{
    let mut so_far = None;
    for point in points {
        let point = *point;
        so_far = Some(T::join(so_far, point.w, radii.radius(point)));
    }
    so_far.unwrap_or(0)
}

/// The totals of an instance's weights times both radii.
pub(crate) fn totals_of<R: TwoRadii>(instance: &Instance, radii: &R) -> (i128, i128)
    ensures first { result.0
        ≡ total_of instance.now (map (R.first_of radii.now) instance.now.points) }
    ensures second { result.1
        ≡ total_of instance.now (map (R.second_of radii.now) instance.now.points) }
    ensures first_size { unsigned_abs result.0 ≤ WEIGHT_LIMIT * R.first_limit }
    ensures second_size { unsigned_abs result.1 ≤ WEIGHT_LIMIT * (UNIT * longest) }
{
    match instance.kind() {
        Kind::Sum => totals_by::<SumTotal, R>(instance.points(), radii),
        Kind::Max => totals_by::<MaxTotal, R>(instance.points(), radii),
    }
}

/// The totals of weights times both radii, each joined one after another, and 0 of no points.
fn totals_by<T: Total, R: TwoRadii>(points: &[DemandPt], radii: &R) -> (i128, i128)
    requires { sum_by (λ (d : DemandPt). unsigned_abs d.w) points.now ≤ WEIGHT_LIMIT }
    ensures first { result.0
        ≡ unwrap_or (fold (joined_at T.joined (R.first_of radii.now)) None points.now) (pos 0) }
    ensures second { result.1
        ≡ unwrap_or (fold (joined_at T.joined (R.second_of radii.now)) None points.now) (pos 0) }
    ensures first_size { unsigned_abs result.0 ≤ WEIGHT_LIMIT * R.first_limit }
    ensures second_size { unsigned_abs result.1 ≤ WEIGHT_LIMIT * (UNIT * longest) }
{
    let mut first = None;
    let mut second = None;
    for point in points {
        let point = *point;
        let (one, other) = radii.radii(point);
        first = Some(T::join(first, point.w, one));
        second = Some(T::join(second, point.w, other));
    }
    (first.unwrap_or(0), second.unwrap_or(0))
}
