//! Numbers, shapes, instances and bounds.

ghost use Rattle.std.specs.Prelude.{◌^◌, ◌<◌, ◌≤◌, unsigned_abs};
ghost use Rattle.objectives.specs.Totals.{size_of};

use candidate_sites::{centre_site, opening};
use case_maker::make_instance;
use centre_bound::{centre_bound, polished};
use convex_region::{Polygon, PolygonFault};
use discard_log::NodeList;
use dist_bounds::{far2, near2};
use dyadic_square::Square;
use exact_geometry::{Extent, Place, Pt, boxes_apart, side};
use exclusion::excluded;
use incumbent_word::{NONE, from_word, to_word};
use near_set::count_near;
use objectives::{Total, coarse, cost_of, fine};
use root_enclosure::{ceil_root, floor_root};
use site_model::{DemandPt, Instance, Kind, Site};
use std::alloc::Global;

/// `Total::join`.
fn join_is<T: Total>(so_far: Option<i128>, w: i64, r: u64) -> i128
    requires so_far { size_of so_far ≤ 2 ^ 100 }
    requires weight { unsigned_abs w ≤ 2 ^ 24 }
    requires radius { r < 2 ^ 63 }
{
    T::join(so_far, w, r)
}

/// `Instance::points`.
fn points_are(instance: &Instance) -> &[DemandPt] {
    instance.points()
}

/// `Instance::permitted`.
fn permitted_are(instance: &Instance) -> &[Polygon] {
    instance.permitted()
}

/// `Instance::forbidden`.
fn forbidden_are(instance: &Instance) -> &[Polygon] {
    instance.forbidden()
}

#[test]
fn numbers_and_shapes(rt: HostRuntime) {
    let corner = Place { x: 0, y: 0 };
    let point = Pt { x: 0, y: 0 };
    let square = Square {
        x: 0,
        y: 0,
        level: 17,
    };
    let extent = Extent {
        x0: 0,
        y0: 0,
        x1: 1,
        y1: 1,
    };
    let _: fn(Place) -> Pt = Place::grid;
    let _: fn(Place, Place, Pt) -> i128 = side;
    let _: fn(Extent, Extent) -> bool = boxes_apart;
    let _: fn(u128) -> u64 = floor_root;
    let _: fn(u128) -> u64 = ceil_root;
    let _: u64 = NONE;
    let _: fn(i64) -> u64 = to_word;
    let _: fn(u64) -> Option<i64> = from_word;
    let _: fn(Global, &[Place]) -> Result<Polygon, PolygonFault> = Polygon::build;
    let _: fn(&Polygon, Pt) -> bool = Polygon::covers;
    let _: fn(&Polygon, Pt) -> bool = Polygon::covers_inside;
    let _: fn(&Polygon) -> Extent = Polygon::bounds;
    let _: fn(&Polygon) -> usize = Polygon::len;
    let _: fn(&Polygon, usize) -> Place = Polygon::vertex;
    let _: fn(i64, i64, u8) -> Square = Square::of;
    let _: fn(Square) -> i64 = Square::side_len;
    let _: fn(Square) -> Extent = Square::extent;
    let _: fn(Square, u8) -> Pt = Square::corner;
    let _: fn(Square, Pt) -> bool = Square::contains;
    let _: fn(Square, u8) -> Square = Square::quarter;
    let _: fn(Square) -> Pt = Square::centre;
    let _: fn(Square, Square) -> u128 = Square::z_key;
    let _: fn(Square, Place) -> u128 = near2;
    let _: fn(Square, Place) -> u128 = far2;
    assert_eq!(rt; corner.grid(), point);
    assert!(rt; square.contains(point));
    assert!(rt; !boxes_apart(extent, extent));
}

#[test]
fn instances_and_bounds(rt: HostRuntime) {
    let town = DemandPt {
        x: 0,
        y: 0,
        w: 1,
        cutoff: None,
    };
    let site = Site { x: 0, y: 0 };
    let _: fn(Site) -> Pt = Site::pt;
    let _: fn(Kind, Vec<DemandPt>, Vec<Polygon>, Vec<Polygon>) -> Instance = Instance::build;
    let _: fn(&Instance) -> Kind = Instance::kind;
    let _: fn(&Instance) -> i64 = Instance::weight;
    let _: fn(&Instance, Pt) -> bool = Instance::permits;
    let _: fn(&Instance) -> Square = Instance::root;
    let _: fn(&Instance, Square) -> i64 = coarse;
    let _: fn(&Instance, Square) -> i64 = fine;
    let _: fn(&Instance, Site) -> (i64, i64) = cost_of;
    let _: fn(&Instance, Square) -> bool = excluded;
    let _: fn(&Instance) -> Option<(Site, i64)> = opening;
    let _: fn(&Instance, Square) -> Option<(Site, i64)> = centre_site;
    let _: fn(Global, u32, u32) -> Result<Instance, case_maker::NoMemory> = make_instance;
    let _: fn(&Instance, Square) -> i64 = centre_bound;
    let _: fn(&Instance, &NodeList) -> Option<i64> = polished;
    let _: fn(&Instance, i64, u8, u32) -> Option<u32> = count_near;
    assert_eq!(rt; Pt::of(town.x.into(), town.y.into()), site.pt());
}
