//! Worked near sets, and near sets against a plain filter of all squares of a level.

ghost use Rattle.std.specs.Prelude.{◌≤◌, length};
ghost use Rattle.siting_definitions.specs.Instance.{weight};

use crate::*;
use convex_region::Polygon;
use dyadic_square::Square;
use exact_geometry::Place;
use exclusion::excluded;
use objectives::fine;
use port_io::{Out, Sink, SureSink, WriteFault};
use site_model::{DemandPt, Instance, Kind};
use std::alloc::Global;
use std::process::Abort;

/// The instance of these points, with one permitted polygon and maybe a forbidden one.
fn instance(
    rt: &impl Abort,
    alloc: Global,
    kind: Kind,
    points: Vec<DemandPt>,
    permitted: &[Place],
    forbidden: &[Place],
) -> Instance
    requires few { 1 ≤ length points.items }
    requires many { length points.items ≤ 4096 }
    requires weight { weight points.items ≤ 16000000 }
{
    let allowed = Polygon::build(alloc, permitted).expect(rt, "a polygon");
    let allowed = Vec::from_array(alloc, [allowed]).expect(rt, "memory");
    let mut barred = Vec::new(alloc);
    if let Ok(polygon) = Polygon::build(alloc, forbidden) {
        barred = Vec::from_array(alloc, [polygon]).expect(rt, "memory");
    }
    Instance::build(kind, points, allowed, barred)
}

/// The square from (0, 0) to (4, 4).
fn square_of_four() -> [Place; 4] {
    [
        Place::of(0, 0),
        Place::of(4, 0),
        Place::of(4, 4),
        Place::of(0, 4),
    ]
}

/// Writes a near set to a sink.
fn write_set<K: Sink>(
    instance: &Instance,
    cost: i64,
    depth: u8,
    sink: &mut K,
) -> Result<(), WriteFault>
    requires { depth ≤ 16 }
{
    let mut out = Out::new(sink);
    write_near(instance, cost, depth, &mut out)?;
    out.finish()
}

/// Checks the near set against its text.
fn check_set(
    rt: &impl Abort,
    alloc: Global,
    instance: &Instance,
    cost: i64,
    depth: u8,
    count: u32,
    text: &[u8],
)
    requires { depth ≤ 16 }
{
    assert_eq!(rt; count_near(instance, cost, depth, count), Some(count));
    assert_eq!(rt; count_near(instance, cost, depth, u32::MAX), Some(count));
    if count > 0 {
        assert_eq!(rt; count_near(instance, cost, depth, count - 1), None);
    }
    let mut sink = SureSink::with_room(alloc, 200_000).expect(rt, "memory");
    assert_eq!(rt; write_set(instance, cost, depth, &mut sink), Ok(()));
    assert_eq!(rt; sink.bytes(), Some(text));
}

/// All squares so many levels below a square, in preorder: each list is that of the quarters of the
/// one before.
fn squares_below(rt: &impl Abort, alloc: Global, root: Square, depth: u8) -> Vec<Square> {
    let mut squares = Vec::from_array(alloc, [root]).expect(rt, "memory");
    for _ in 0..depth {
        let mut next = Vec::new(alloc);
        for sq in &squares {
            let sq = *sq;
            assert!(rt; sq.level > 0);
            for i in 0..4 {
                next.push(sq.quarter(i)).expect(rt, "memory");
            }
        }
        squares = next;
    }
    squares
}

/// Checks near sets of several costs and depths against the filter of all squares.
fn check_filter(rt: &impl Abort, alloc: Global, instance: &Instance) {
    for cost in [
        -800_000,
        -100_000,
        0,
        90_000,
        327_680,
        700_000,
        2_000_000,
        i64::MAX,
    ] {
        for depth in 0..7 {
            let mut count: u32 = 0;
            let mut text = String::new(alloc);
            for sq in &squares_below(rt, alloc, instance.root(), depth) {
                let sq = *sq;
                if !excluded(instance, sq) && fine(instance, sq) <= cost {
                    count = count.saturating_add(1);
                    let line = format!(in alloc; "square {} {}\n", sq.x, sq.y).expect(rt, "memory");
                    text.push_str(line.as_str()).expect(rt, "memory");
                }
            }
            check_set(rt, alloc, instance, cost, depth, count, text.as_bytes());
        }
    }
}

#[test]
#[tactic(auto, unfolding(siting_definitions::specs::Instance::weight))]
fn one_town_and_a_triangle(rt: HostRuntime) {
    let alloc = rt.alloc();
    let points = Vec::from_array(alloc, [DemandPt::of(0, 0, 1, None)]).expect(&rt, "memory");
    let triangle = [Place::of(3, 4), Place::of(9, 4), Place::of(3, 10)];
    let town = instance(&rt, alloc, Kind::Sum, points, &triangle, &[]);
    check_set(&rt, alloc, &town, 327_679, 1, 0, b"");
    check_set(&rt, alloc, &town, 327_680, 1, 1, b"square 196608 262144\n");
    // Any cost: the fourth quarter is excluded.
    let all = b"square 196608 262144\nsquare 458752 262144\nsquare 196608 524288\n";
    check_set(&rt, alloc, &town, 1_152_921_504_607_174_656, 1, 3, all);
    check_set(
        &rt,
        alloc,
        &town,
        1_152_921_504_607_174_656,
        0,
        1,
        b"square 196608 262144\n",
    );
    check_filter(&rt, alloc, &town);
}

#[test]
#[tactic(auto, unfolding(siting_definitions::specs::Instance::weight))]
fn the_four_squares_at_a_town(rt: HostRuntime) {
    let alloc = rt.alloc();
    let points = Vec::from_array(alloc, [DemandPt::of(2, 2, 1, None)]).expect(&rt, "memory");
    let town = instance(&rt, alloc, Kind::Sum, points, &square_of_four(), &[]);
    let four =
        b"square 131064 131064\nsquare 131072 131064\nsquare 131064 131072\nsquare 131072 131072\n";
    check_set(&rt, alloc, &town, 0, 16, 4, four);
}

#[test]
#[tactic(auto, unfolding(siting_definitions::specs::Instance::weight))]
fn sums_round_what_is_forbidden(rt: HostRuntime) {
    let alloc = rt.alloc();
    let points = [
        DemandPt::of(2, 2, 2, None),
        DemandPt::of(3, 5, 1, Some(2)),
        DemandPt::of(7, 1, -1, Some(3)),
    ];
    let points = Vec::from_array(alloc, points).expect(&rt, "memory");
    let barred = [
        Place::of(1, 1),
        Place::of(3, 1),
        Place::of(3, 3),
        Place::of(1, 3),
    ];
    let towns = instance(&rt, alloc, Kind::Sum, points, &square_of_four(), &barred);
    check_filter(&rt, alloc, &towns);
}

#[test]
#[tactic(auto, unfolding(siting_definitions::specs::Instance::weight))]
fn greatest_terms_of_both_signs(rt: HostRuntime) {
    let alloc = rt.alloc();
    let points = [DemandPt::of(1, 1, 1, None), DemandPt::of(6, 2, -2, None)];
    let points = Vec::from_array(alloc, points).expect(&rt, "memory");
    let barred = [Place::of(0, 0), Place::of(5, 0), Place::of(0, 5)];
    let towns = instance(&rt, alloc, Kind::Max, points, &square_of_four(), &barred);
    check_filter(&rt, alloc, &towns);
}
