//! Demand points, and the sum of their weights.

ghost use Rattle.std.specs.Prelude.{◌≡◌, ◌≤◌, pos, All};
ghost use Rattle.siting_definitions.specs.Instance as instances;
ghost use Rattle.siting_definitions.specs.Instance.{IsDemandPt, weight};
ghost use Rattle.siting_definitions.specs.declared.TheConstants.{WEIGHT_LIMIT};

use std::marker::Model;

/// A demand point: a place in lengths, each coordinate at most 1,000,000 in size, with a weight.
#[derive(Clone, Copy, Debug, PartialEq, Eq)]
pub struct DemandPt {
    /// The coordinate to the right, in lengths.
    pub x: i32,
    /// The coordinate upwards, in lengths.
    pub y: i32,
    /// The weight: above 0 the point attracts, below 0 it repels. At most
    /// 16,000,000 in size, and not 0.
    pub w: i64,
    /// The cutoff in lengths, 1 to 4,000,000, if the point has one: a
    /// distance above it counts as it.
    pub cutoff: Option<i32>,
}

impl Model for DemandPt {
    ghost use Rattle.siting_definitions.specs.Instance as instances;
    ghost use Rattle.siting_definitions.specs.Instance.{IsDemandPt};

    ghost Value = { instances.DemandPt };

    ghost view = { λ a. record { x = a.x; y = a.y; w = a.w; cutoff = a.cutoff } };

    ghost invariant = { λ a. IsDemandPt (record { x = a.x; y = a.y; w = a.w; cutoff = a.cutoff }) };

    ghost inverse = { λ d. record { x = d.x; y = d.y; w = d.w; cutoff = d.cutoff } };
}

impl DemandPt {
    /// The demand point at (x, y), in lengths, with this weight and cutoff.
    pub fn of(x: i32, y: i32, w: i64, cutoff: Option<i32>) -> DemandPt
        requires { IsDemandPt (record { x = x; y = y; w = w; cutoff = cutoff }) }
        ensures { result ≡ record { x = x; y = y; w = w; cutoff = cutoff } }
    {
        DemandPt { x, y, w, cutoff }
    }
}

/// The sum of the sizes of the weights.
pub(crate) fn weight_of(points: &[DemandPt]) -> i64
    requires { weight points.now ≤ WEIGHT_LIMIT }
    ensures value { result ≡ pos (weight points.now) }
    ensures points { All IsDemandPt points.now }
{
    let mut sum = 0;
    for point in points {
        let point = *point;
        sum += point.w.unsigned_abs();
    }
    sum as i64
}
