//! Made instances: from a seed, instances of any size for tests and trials, and one
//! small instance for tests.
#![tactic(auto)]

mod instance;
mod memory;
mod points;
mod square;

pub use instance::{make_instance, one_town};
pub use memory::NoMemory;

#[cfg(test)]
mod tests {
    use super::*;
    use convex_region::Polygon;
    use exact_geometry::Place;
    use site_model::{DemandPt, Kind};
    use std::process::Abort;

    fn is_one(rt: &impl Abort, polygons: &[Polygon], want: &[Place]) {
        assert_eq!(rt; polygons.len(), 1);
        let polygon = &polygons[0];
        assert_eq!(rt; polygon.len(), want.len());
        for (i, corner) in want.iter().enumerate() {
            assert!(rt; i < polygon.len());
            assert_eq!(rt; polygon.vertex(i), *corner);
        }
    }

    #[test]
    fn one_point_of_seed_7(rt: HostRuntime) {
        let instance = make_instance(rt.alloc(), 7, 1).expect(&rt, "memory");
        assert_eq!(rt; instance.kind(), Kind::Sum);
        assert_eq!(rt; instance.points().len(), 1);
        assert_eq!(rt; instance.points()[0], DemandPt::of(58692, 29418, 869, None));
        let large = [
            Place::of(0, 0),
            Place::of(100000, 0),
            Place::of(100000, 100000),
            Place::of(0, 100000),
        ];
        let small = [
            Place::of(40000, 40000),
            Place::of(60000, 40000),
            Place::of(60000, 60000),
            Place::of(40000, 60000),
        ];
        is_one(&rt, instance.permitted(), &large);
        is_one(&rt, instance.forbidden(), &small);
    }

    #[test]
    fn one_town_in_a_square(rt: HostRuntime) {
        let instance = one_town(rt.alloc()).expect(&rt, "memory");
        assert_eq!(rt; instance.kind(), Kind::Sum);
        assert_eq!(rt; instance.points().len(), 1);
        assert_eq!(rt; instance.points()[0], DemandPt::of(2, 2, 1, None));
        let square = [
            Place::of(0, 0),
            Place::of(4, 0),
            Place::of(4, 4),
            Place::of(0, 4),
        ];
        is_one(&rt, instance.permitted(), &square);
        assert_eq!(rt; instance.forbidden().len(), 0);
    }

    #[test]
    fn the_most_points_of_the_greatest_seed(rt: HostRuntime) {
        let instance = make_instance(rt.alloc(), 2147483647, 4096).expect(&rt, "memory");
        assert_eq!(rt; instance.points().len(), 4096);
        assert!(rt; instance.weight() <= 4096000);
    }
}
