//! Worked values, and the one pass against the four sums of the definition.

ghost use Rattle.std.specs.Prelude.{◌≤◌, length, unsigned_abs};
ghost use Rattle.siting_definitions.specs.Instance.{weight};
ghost use Rattle.centre_bound.specs.Polished.{HasFineBound};

use crate::{centre_bound, polished};
use convex_region::Polygon;
use discard_log::{Mark, Node, NodeList};
use dyadic_square::Square;
use exact_geometry::{Place, Pt};
use objectives::{fine, fine_radius};
use site_model::{DemandPt, Instance, Kind};
use std::alloc::Global;
use std::process::Abort;

/// The instance of these points, where a site may stand from (-1, -1) to (1, 1).
fn instance(rt: &impl Abort, alloc: Global, kind: Kind, points: Vec<DemandPt>) -> Instance
    requires few { 1 ≤ length points.items }
    requires many { length points.items ≤ 4096 }
    requires weight { weight points.items ≤ 16000000 }
{
    let corners = [
        Place::of(-1, -1),
        Place::of(1, -1),
        Place::of(1, 1),
        Place::of(-1, 1),
    ];
    let square = Polygon::build(alloc, &corners).expect(rt, "a polygon");
    let permitted = Vec::from_array(alloc, [square]).expect(rt, "memory");
    Instance::build(kind, points, permitted, Vec::new(alloc))
}

#[test]
#[tactic(auto, unfolding(siting_definitions::specs::Instance::weight))]
fn two_towns_on_a_line(rt: HostRuntime) {
    let points = [DemandPt::of(-99, 1, 1, None), DemandPt::of(101, 1, 1, None)];
    let points = Vec::from_array(rt.alloc(), points).expect(&rt, "memory");
    let towns = instance(&rt, rt.alloc(), Kind::Sum, points);
    let root = Square::of(-65536, -65536, 18);
    assert_eq!(rt; fine(&towns, root), 12845056);
    assert_eq!(rt; centre_bound(&towns, root), 13107200);
    // At level 0 there is no centre.
    let least = Square::of(0, 0, 0);
    assert_eq!(rt; centre_bound(&towns, least), fine(&towns, least));
}

#[test]
#[tactic(auto, unfolding(siting_definitions::specs::Instance::weight))]
fn towns_of_all_sorts(rt: HostRuntime) {
    let points = [
        DemandPt::of(12, 4, 7, None),
        DemandPt::of(-44, 56, -2, None),
        DemandPt::of(8, -42, 1, Some(40)),
        DemandPt::of(-7, -8, 5, None),
        DemandPt::of(6, -28, -1, None),
    ];
    let points = Vec::from_array(rt.alloc(), points).expect(&rt, "memory");
    let towns = instance(&rt, rt.alloc(), Kind::Sum, points);
    let square = Square::of(131072, 65536, 17);
    assert_eq!(rt; fine(&towns, square), -1126013);
    assert_eq!(rt; centre_bound(&towns, square), -480023);
}

#[test]
#[tactic(auto, unfolding(siting_definitions::specs::Instance::weight))]
fn the_greatest_is_not_cut(rt: HostRuntime) {
    let points = [DemandPt::of(-99, 1, 1, None), DemandPt::of(101, 1, 1, None)];
    let points = Vec::from_array(rt.alloc(), points).expect(&rt, "memory");
    let towns = instance(&rt, rt.alloc(), Kind::Max, points);
    assert_eq!(rt;
        centre_bound(&towns, Square::of(-65536, -65536, 18)),
        6422528
    );
}

#[test]
#[tactic(auto, unfolding(siting_definitions::specs::Instance::weight))]
fn repelling_towns_and_cutoffs_are_not_cut(rt: HostRuntime) {
    let points = [
        DemandPt::of(-99, 1, -1, None),
        DemandPt::of(101, 1, 1, Some(50)),
    ];
    let points = Vec::from_array(rt.alloc(), points).expect(&rt, "memory");
    let towns = instance(&rt, rt.alloc(), Kind::Sum, points);
    let root = Square::of(-65536, -65536, 18);
    assert_eq!(rt; centre_bound(&towns, root), fine(&towns, root));
}

#[test]
#[tactic(auto, unfolding(siting_definitions::specs::Instance::weight))]
fn a_town_at_the_centre_of_the_largest_square(rt: HostRuntime) {
    let points = [DemandPt::of(0, 0, 16000000, None)];
    let points = Vec::from_array(rt.alloc(), points).expect(&rt, "memory");
    let towns = instance(&rt, rt.alloc(), Kind::Sum, points);
    assert_eq!(rt;
        centre_bound(&towns, Square::of(-68719476736, -68719476736, 37)),
        0
    );
    // The farthest square from it: a third of the greatest cost.
    let far = Square::of(137438953472, 137438953472, 37);
    assert_eq!(rt; centre_bound(&towns, far), 3109888511975474853);
}

/// A leaf that is settled at its fine bound.
fn leaf(towns: &Instance, square: Square) -> Node
    ensures { HasFineBound towns.now result }
{
    Node {
        square,
        mark: Mark::Bounded(fine(towns, square)),
    }
}

#[test]
#[tactic(auto, unfolding(siting_definitions::specs::Instance::weight))]
fn the_least_of_the_leaves(rt: HostRuntime) {
    let points = [DemandPt::of(-99, 1, 1, None), DemandPt::of(101, 1, 1, None)];
    let points = Vec::from_array(rt.alloc(), points).expect(&rt, "memory");
    let towns = instance(&rt, rt.alloc(), Kind::Sum, points);
    let root = Square::of(-65536, -65536, 18);
    let whole = Vec::from_array(rt.alloc(), [leaf(&towns, root)]).expect(&rt, "memory");
    assert_eq!(rt;
        polished(&towns, &NodeList::from_vec(whole)),
        Some(13107200)
    );
    let excluded = Node {
        square: root,
        mark: Mark::Shut,
    };
    let nowhere = Vec::from_array(rt.alloc(), [excluded]).expect(&rt, "memory");
    assert_eq!(rt; polished(&towns, &NodeList::from_vec(nowhere)), None);
    // The upper squares are farther from the line of the towns: the least is found last.
    let (upper, lower) = (root.quarter(3), root.quarter(1));
    let parts = [
        Node {
            square: root,
            mark: Mark::Split(None),
        },
        leaf(&towns, upper),
        leaf(&towns, lower),
    ];
    let parts = Vec::from_array(rt.alloc(), parts).expect(&rt, "memory");
    let least = centre_bound(&towns, lower).min(centre_bound(&towns, upper));
    assert_eq!(rt; polished(&towns, &NodeList::from_vec(parts)), Some(least));
}

/// 2^20 times a way by a length, rounded towards 0.
fn part(way: i128, length: i128) -> i128 {
    way.wrapping_mul(1048576).checked_div(length).unwrap_or(0)
}

/// What a straight point adds at `corner`, with its direction to `centre`.
fn straight(point: DemandPt, centre: Pt, corner: Pt) -> i128 {
    let a = (point.x as i128).wrapping_mul(65536);
    let b = (point.y as i128).wrapping_mul(65536);
    let right = (centre.x as i128).wrapping_sub(a);
    let upper = (centre.y as i128).wrapping_sub(b);
    let squared = right
        .wrapping_mul(right)
        .wrapping_add(upper.wrapping_mul(upper))
        .unsigned_abs();
    let root = squared.isqrt();
    let length = root
        .wrapping_add((root.wrapping_mul(root) < squared) as u128)
        .cast_signed();
    let x = (corner.x as i128)
        .wrapping_sub(a)
        .wrapping_mul(part(right, length));
    let y = (corner.y as i128)
        .wrapping_sub(b)
        .wrapping_mul(part(upper, length));
    x.wrapping_add(y).wrapping_mul(point.w as i128)
}

/// What a point adds at corner `i` of a square.
fn at_corner(point: DemandPt, square: Square, i: u8) -> i128 {
    if point.w > 0 && point.cutoff.is_none() && square.level > 0 && i < 4 {
        straight(point, square.centre(), square.corner(i))
    } else {
        ((16 * fine_radius(square, point)) as i128).wrapping_mul(point.w as i128)
    }
}

/// The cut of two points by the definition's four sums.
fn cut_by_corners(first: DemandPt, second: DemandPt, square: Square) -> i128 {
    let mut least = i128::MAX;
    for i in 0..4u8 {
        least = least.min(at_corner(first, square, i).wrapping_add(at_corner(second, square, i)));
    }
    least >> 20
}

/// The next number of a row.
fn next(random: u64) -> u64 {
    random
        .wrapping_mul(6_364_136_223_846_793_005)
        .wrapping_add(1_442_695_040_888_963_407)
}

/// A coordinate, in lengths: often one of the ends.
fn made_coordinate(random: u64) -> i32
    ensures { unsigned_abs result ≤ 1000000 }
{
    match random % 8 {
        0 => -1_000_000,
        1 => 1_000_000,
        _ => ((random >> 20) % 2_000_001) as i32 - 1_000_000,
    }
}

/// A weight: of four numbers one is below 0.
fn made_weight(random: u64) -> i64
    ensures size { unsigned_abs result ≤ 8000000 }
    ensures least { 1 ≤ unsigned_abs result }
{
    let size = ((random >> 20) % 8_000_000) as i64 + 1;
    if random % 4 == 0 { -size } else { size }
}

/// A demand point; of five one has a cutoff.
fn made_point(random: u64) -> DemandPt
    ensures { unsigned_abs result.w ≤ 8000000 }
{
    let cutoff = match random % 5 {
        0 => Some(((random >> 24) % 4_000_000) as i32 + 1),
        _ => None,
    };
    let x = made_coordinate(next(random));
    let y = made_coordinate(next(next(random)));
    DemandPt::of(x, y, made_weight(next(next(next(random)))), cutoff)
}

/// A square of level 1 to 36 in the lower left of all squares.
fn made_square(random: u64) -> Square {
    let mut square = Square::of(-137_438_953_472, -137_438_953_472, 37);
    let mut random = random;
    for _ in 0..random % 36 + 1 {
        random = next(random);
        if square.level > 1 {
            square = square.quarter(((random >> 40) % 4) as u8);
        }
    }
    square
}

#[test]
#[tactic(auto, unfolding(siting_definitions::specs::Instance::weight))]
fn one_pass_serves_all_corners(rt: HostRuntime) {
    let mut random = 88_172_645_463_325_252;
    for _ in 0..500 {
        random = next(random);
        let first = made_point(random);
        random = next(random);
        let second = made_point(random);
        random = next(random);
        let square = made_square(random);
        let points = Vec::from_array(rt.alloc(), [first, second]).expect(&rt, "memory");
        let towns = instance(&rt, rt.alloc(), Kind::Sum, points);
        let cut = cut_by_corners(first, second, square);
        let want = cut.max(fine(&towns, square) as i128);
        assert_eq!(rt; centre_bound(&towns, square) as i128, want, "{square:?}");
    }
}
