//! Squares, their parts and their order, worked by hand.

use super::*;
use exact_geometry::{Extent, Pt};

#[test]
fn borders_and_corners(rt: HostRuntime) {
    let square = Square::of(-8, 4, 2);
    assert_eq!(rt; square.side_len(), 4);
    assert_eq!(rt;
        square.extent(),
        Extent {
            x0: -8,
            y0: 4,
            x1: -4,
            y1: 8
        }
    );
    assert_eq!(rt; square.corner(0), Pt::of(-8, 4));
    assert_eq!(rt; square.corner(1), Pt::of(-4, 4));
    assert_eq!(rt; square.corner(2), Pt::of(-8, 8));
    assert_eq!(rt; square.corner(3), Pt::of(-4, 8));
    assert_eq!(rt; square.centre(), Pt::of(-6, 6));
    let largest = Square::of(-137438953472, 0, 37);
    assert_eq!(rt; largest.side_len(), 137438953472);
    assert_eq!(rt; largest.corner(3), Pt::of(0, 137438953472));
}

#[test]
fn points_of_a_square(rt: HostRuntime) {
    let square = Square::of(-8, 4, 2);
    let table = [
        (Pt::of(-8, 4), true),
        (Pt::of(-5, 7), true),
        (Pt::of(-9, 4), false),
        (Pt::of(-4, 4), false),
        (Pt::of(-8, 3), false),
        (Pt::of(-8, 8), false),
    ];
    for (p, want) in table {
        assert_eq!(rt; square.contains(p), want, "at {p:?}");
    }
}

#[test]
fn quarters_of_a_square(rt: HostRuntime) {
    let square = Square::of(-8, 4, 2);
    assert_eq!(rt; square.quarter(0), Square::of(-8, 4, 1));
    assert_eq!(rt; square.quarter(1), Square::of(-6, 4, 1));
    assert_eq!(rt; square.quarter(2), Square::of(-8, 6, 1));
    assert_eq!(rt; square.quarter(3), Square::of(-6, 6, 1));
    assert_eq!(rt; Square::of(0, 0, 1).quarter(3), Square::of(1, 1, 0));
}

#[test]
fn keys_and_ranks(rt: HostRuntime) {
    let root = Square::of(-4, -4, 3);
    // The square, its key and its rank, in preorder.
    let table = [
        (root, 0, 60),
        (Square::of(-4, -4, 2), 0, 61),
        (Square::of(-4, -4, 0), 0, 63),
        // 1 to the right and 2 upwards: the bits 10 of y above the bits 01 of x
        (Square::of(-3, -2, 0), 9, 639),
        (Square::of(0, -4, 2), 16, 1085),
        (Square::of(-4, 0, 2), 32, 2109),
        (Square::of(0, 0, 2), 48, 3133),
        (Square::of(3, 3, 0), 63, 4095),
    ];
    for (square, key, rank) in table {
        assert_eq!(rt; square.z_key(root), key, "at {square:?}");
        assert_eq!(rt; square.rank(root), rank, "at {square:?}");
    }
    // Bits of every byte: 2^37 - 1 both ways.
    let wide = Square::of(-137438953472, -137438953472, 37);
    assert_eq!(rt; Square::of(-1, -1, 0).z_key(wide), 18889465931478580854783);
}
