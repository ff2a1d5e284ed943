//! Distances to squares and to a grid point, worked by hand.

use super::*;

#[test]
fn distances_to_squares(rt: HostRuntime) {
    let unit = Square::of(0, 0, 16);
    let table = [
        // Inside, on a corner, beside, and beyond a corner: lengths are 65536 grid units.
        (
            Square::of(0, 0, 19),
            Place::of(5, 5),
            0,
            2 * 327680 * 327680,
        ),
        (unit, Place::of(0, 0), 0, 2 * 65536 * 65536),
        (
            unit,
            Place::of(3, 0),
            131072 * 131072,
            196608 * 196608 + 65536 * 65536,
        ),
        (
            unit,
            Place::of(-1, -2),
            5 * 65536 * 65536,
            13 * 65536 * 65536,
        ),
        (Square::of(-7, 9, 0), Place::of(0, 0), 36 + 81, 49 + 100),
        (
            Square::of(-65536000000, -65536000000, 37),
            Place::of(-1000000, -1000000),
            0,
            37778931862957161709568,
        ),
    ];
    for (square, place, near, far) in table {
        assert_eq!(rt; near2(square, place), near, "{place:?} to {square:?}");
        assert_eq!(rt; far2(square, place), far, "{place:?} to {square:?}");
        assert_eq!(rt;
            near_or_far2(square, place, false),
            near,
            "{place:?} to {square:?}"
        );
        assert_eq!(rt;
            near_or_far2(square, place, true),
            far,
            "{place:?} to {square:?}"
        );
    }
    assert_eq!(rt; distance2(Pt::of(3, -4), Place::of(0, 0)), 25);
    assert_eq!(rt;
        distance2(Pt::of(274877906944, 0), Place::of(-1000000, 0)),
        115881628040878291419136
    );
}
