//! Sides, grid points and boxes, worked by hand.

use super::*;

#[test]
fn sides_of_edges(rt: HostRuntime) {
    let table = [
        // A point above, on and below the edge to the right, and one above the edge to the left.
        (Place::of(0, 0), Place::of(1, 0), Pt::of(0, 65536), 65536),
        (Place::of(0, 0), Place::of(1, 0), Pt::of(98304, 0), 0),
        (Place::of(0, 0), Place::of(1, 0), Pt::of(0, -1), -1),
        (Place::of(1, 0), Place::of(0, 0), Pt::of(0, 65536), -65536),
        // (4 - 2)(100000 - 65536 * 3) - (7 - 3)(200000 - 65536 * 2) = -193216 - 275712
        (
            Place::of(2, 3),
            Place::of(4, 7),
            Pt::of(200000, 100000),
            -468928,
        ),
        // 2000000 * (2^39 + 65536 * 1000000)
        (
            Place::of(-1000000, -1000000),
            Place::of(1000000, -1000000),
            Pt::of(0, 549755813888),
            1230583627776000000,
        ),
    ];
    for (a, b, p, want) in table {
        assert_eq!(rt; side(a, b, p), want, "at {p:?}");
    }
}

#[test]
fn grid_points_of_places(rt: HostRuntime) {
    assert_eq!(rt; Place::of(3, -2).grid(), Pt::of(196608, -131072));
    assert_eq!(rt;
        Place {
            x: 1000000,
            y: -1000000
        }
        .grid(),
        Pt {
            x: 65536000000,
            y: -65536000000
        }
    );
}

#[test]
fn boxes_with_a_common_border(rt: HostRuntime) {
    let unit = Extent {
        x0: 0,
        y0: 0,
        x1: 10,
        y1: 10,
    };
    let table = [
        ((10, 10, 20, 20), false),
        ((11, 0, 20, 10), true),
        ((-9, 0, -1, 10), true),
        ((0, 11, 10, 20), true),
        ((0, -9, 10, -1), true),
        ((-9, -9, 0, 0), false),
        ((3, 3, 4, 4), false),
    ];
    for ((x0, y0, x1, y1), want) in table {
        let other = Extent { x0, y0, x1, y1 };
        assert_eq!(rt; boxes_apart(unit, other), want, "at {other:?}");
        assert_eq!(rt; boxes_apart(other, unit), want, "at {other:?}");
    }
}
