//! Worked values.

ghost use Rattle.std.specs.Prelude.{◌≤◌, length};
ghost use Rattle.siting_definitions.specs.Instance.{weight};

use crate::*;
use convex_region::Polygon;
use dyadic_square::Square;
use exact_geometry::Place;
use site_model::{DemandPt, Instance, Kind, Site};
use std::alloc::Global;
use std::process::Abort;

/// The instance of these points, where a site may stand from (0, 0) to (4, 4).
fn instance(rt: &impl Abort, alloc: Global, kind: Kind, points: Vec<DemandPt>) -> Instance
    requires few { 1 ≤ length points.items }
    requires many { length points.items ≤ 4096 }
    requires weight { weight points.items ≤ 16000000 }
{
    let corners = [
        Place::of(0, 0),
        Place::of(4, 0),
        Place::of(4, 4),
        Place::of(0, 4),
    ];
    let square = Polygon::build(alloc, &corners).expect(rt, "a polygon");
    let permitted = Vec::from_array(alloc, [square]).expect(rt, "memory");
    Instance::build(kind, points, permitted, Vec::new(alloc))
}

#[test]
#[tactic(auto, unfolding(siting_definitions::specs::Instance::weight))]
fn mixed_signs_at_one_place(rt: HostRuntime) {
    let points = [DemandPt::of(5, 5, 3, None), DemandPt::of(5, 5, -3, None)];
    let points = Vec::from_array(rt.alloc(), points).expect(&rt, "memory");
    let instance = instance(&rt, rt.alloc(), Kind::Sum, points);
    let root = Square::of(0, 0, 19);
    assert_eq!(rt; cost_of(&instance, Site::of(0, 0)), (-1, 1));
    assert_eq!(rt; fine(&instance, root), -1390229);
    assert_eq!(rt; coarse(&instance, root), -1390230);
}

#[test]
#[tactic(auto, unfolding(siting_definitions::specs::Instance::weight))]
fn greatest_weight_at_the_greatest_distance(rt: HostRuntime) {
    let points = [DemandPt::of(-1000000, -1000000, -16000000, None)];
    let points = Vec::from_array(rt.alloc(), points).expect(&rt, "memory");
    let instance = instance(&rt, rt.alloc(), Kind::Sum, points);
    assert_eq!(rt;
        cost_of(&instance, Site::of(65536000000, 65536000000)),
        (-2965820800757861084, -2965820800757860839)
    );
    let largest = Square::of(-65536000000, -65536000000, 37);
    assert_eq!(rt; fine(&instance, largest), -3109888511975475098);
}

#[test]
#[tactic(auto, unfolding(siting_definitions::specs::Instance::weight))]
fn greatest_of_repelling_terms(rt: HostRuntime) {
    let points = [DemandPt::of(0, 0, -1, None), DemandPt::of(4, 0, -1, None)];
    let points = Vec::from_array(rt.alloc(), points).expect(&rt, "memory");
    let instance = instance(&rt, rt.alloc(), Kind::Max, points);
    assert_eq!(rt;
        cost_of(&instance, Site::of(262144, 262144)),
        (-262144, -262144)
    );
    assert_eq!(rt; fine(&instance, Square::of(0, 0, 19)), -586172);
}

#[test]
#[tactic(auto, unfolding(siting_definitions::specs::Instance::weight))]
fn distance_beyond_a_cutoff(rt: HostRuntime) {
    let points = [DemandPt::of(2, 2, 1, Some(1))];
    let points = Vec::from_array(rt.alloc(), points).expect(&rt, "memory");
    let instance = instance(&rt, rt.alloc(), Kind::Sum, points);
    assert_eq!(rt; cost_of(&instance, Site::of(0, 0)), (65536, 65536));
}

/// An instance with points of both signs, without cutoffs and with cutoffs that are greater and
/// less than distances, at places near the middle and at the ends of coordinates.
#[tactic(auto, unfolding(siting_definitions::specs::Instance::weight))]
fn mixed_instance(rt: &impl Abort, alloc: Global, kind: Kind) -> Instance {
    let points = [
        DemandPt::of(0, 0, 3, None),
        DemandPt::of(0, 0, 5, Some(1)),
        DemandPt::of(7, -2, -4, None),
        DemandPt::of(1000000, -1000000, -2, Some(3)),
        DemandPt::of(-1000000, 1000000, -6, Some(4000000)),
        DemandPt::of(-3, 4, 1, Some(4000000)),
    ];
    let points = Vec::from_array(alloc, points).expect(rt, "memory");
    instance(rt, alloc, kind, points)
}

/// The numbers of a square and of a site are these, by each call that computes one.
fn check_numbers(
    rt: &impl Abort,
    instance: &Instance,
    square: Square,
    site: Site,
    bounds: (i64, i64),
    costs: (i64, i64),
) {
    assert_eq!(rt;
        coarse(instance, square),
        bounds.0,
        "coarse bound of {square:?}"
    );
    assert_eq!(rt;
        fine(instance, square),
        bounds.1,
        "fine bound of {square:?}"
    );
    assert_eq!(rt;
        coarse_and_fine(instance, square),
        bounds,
        "both bounds of {square:?}"
    );
    assert_eq!(rt; cost_of(instance, site), costs, "costs of {site:?}");
    assert_eq!(rt;
        upper_cost(instance, site),
        costs.1,
        "upper cost of {site:?}"
    );
    assert_eq!(rt;
        fine_and_upper(instance, square, site),
        (bounds.1, costs.1),
        "fine bound of {square:?} and upper cost of {site:?}"
    );
}

#[test]
fn numbers_of_one_pass(rt: HostRuntime) {
    let sum = mixed_instance(&rt, rt.alloc(), Kind::Sum);
    let max = mixed_instance(&rt, rt.alloc(), Kind::Max);
    // From the first site the distance to the second point is greater than its cutoff, by less than
    // 1/UNIT of a grid unit: the cutoff is the root rounded down.
    let table = [
        (
            Square::of(65536, 1, 0),
            Site::of(65536, 1),
            (-556092834340, -556092834337),
            (-556092834331, -556092834330),
            (370726, 370726),
            (370726, 370727),
        ),
        (
            Square::of(-65537, -2, 0),
            Site::of(-65536, -1),
            (-556092859652, -556092859645),
            (-556092859636, -556092859635),
            (327680, 327680),
            (327680, 327680),
        ),
        (
            Square::of(262144, 0, 18),
            Site::of(262144, 262144),
            (-556094203386, -556094203380),
            (-556091653264, -556091653263),
            (786432, 786432),
            (1112182, 1112183),
        ),
        (
            Square::of(-137438953472, -137438953472, 37),
            Site::of(-274877906944, -274877906944),
            (-2069479065280, -2069479065277),
            (-1699457056353, -1699457056352),
            (262144, 262144),
            (1166208191990, 1166208191991),
        ),
        (
            Square::of(137438953472, 137438953472, 37),
            Site::of(274877906944, 274877906944),
            (-2350335313057, -2350335313053),
            (-1699455202715, -1699455202714),
            (583104095994, 583104095995),
            (1166208191990, 1166208191991),
        ),
        (
            Square::of(-65536000000, 0, 37),
            Site::of(65536000000, 0),
            (-1551112532060, -1551112532057),
            (-879255739761, -879255739760),
            (0, 0),
            (196608000000, 196608000000),
        ),
    ];
    for (square, site, sum_bounds, sum_costs, max_bounds, max_costs) in table {
        check_numbers(&rt, &sum, square, site, sum_bounds, sum_costs);
        check_numbers(&rt, &max, square, site, max_bounds, max_costs);
    }
}

#[test]
fn radii_to_a_square(rt: HostRuntime) {
    // The square from (4, 0) to (8, 4), in lengths, of which each is 2^32 units of a radius.
    let square = Square::of(262144, 0, 18);
    assert_eq!(rt;
        fine_radius(square, DemandPt::of(2, 2, 1, None)),
        2 * 4294967296
    );
    assert_eq!(rt;
        fine_radius(square, DemandPt::of(2, 2, 1, Some(1))),
        4294967296
    );
    assert_eq!(rt; fine_radius(square, DemandPt::of(5, 1, 1, None)), 0);
    // Its farthest corner is 3 lengths to the right and 4 above.
    assert_eq!(rt;
        fine_radius(square, DemandPt::of(5, 0, -1, None)),
        5 * 4294967296
    );
}

#[test]
fn totals_step_by_step(rt: HostRuntime) {
    assert_eq!(rt; SumTotal::join(None, -3, 2), -6);
    assert_eq!(rt; SumTotal::join(Some(5), -3, 2), -1);
    assert_eq!(rt; MaxTotal::join(None, -3, 2), -6);
    assert_eq!(rt; MaxTotal::join(Some(-7), -3, 2), -6);
    assert_eq!(rt; MaxTotal::join(Some(5), -3, 2), 5);
}

#[test]
fn bounds_that_reach_a_cost(rt: HostRuntime) {
    let table = [
        (None, i64::MAX, i64::MAX, false),
        (Some(7), 5, 2, true),
        (Some(8), 5, 2, false),
        (Some(-8), -10, 2, true),
        // The sum is outside the range of 64 bits.
        (Some(i64::MAX), i64::MAX, 1, true),
        (Some(i64::MIN), i64::MIN, -1, false),
    ];
    for (least, bound, gap, want) in table {
        assert_eq!(rt; reaches(least, bound, gap), want);
    }
}
