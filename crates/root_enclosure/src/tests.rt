//! Known roots, and roots of every length beside their neighbours.

use super::*;
use std::process::Abort;

const LIMIT: u128 = 0x4000_0000_0000_0000_0000_0000_0000_0000;

#[test]
fn known_roots(rt: HostRuntime) {
    for (m, floor, ceil) in [
        (0, 0, 0),
        (1, 1, 1),
        (2, 1, 2),
        (24, 4, 5),
        (25, 5, 5),
        (26, 5, 6),
        (
            LIMIT - 1,
            9_223_372_036_854_775_807,
            9_223_372_036_854_775_808,
        ),
    ] {
        if m < LIMIT {
            assert_eq!(rt; floor_root(m), floor, "floor root of {m}");
            assert_eq!(rt; ceil_root(m), ceil, "ceil root of {m}");
            assert_eq!(rt; both_roots(m), (floor, ceil), "both roots of {m}");
            assert_eq!(rt; root_rounded(m, false), floor, "root of {m}, rounded down");
            assert_eq!(rt; root_rounded(m, true), ceil, "root of {m}, rounded up");
        }
    }
}

/// Whether all of the first 62 binary digits are 1, and their count is even.
fn is_below_a_power_of_4(m: u128) -> bool {
    let digits = 128 - m.leading_zeros();
    digits >= 62 && digits % 2 == 0 && (m << m.leading_zeros()).leading_ones() >= 62
}

/// A root is between its neighbours, and no search was made for it, but just below a power of 4.
fn check(rt: &impl Abort, m: u128) {
    if m < LIMIT {
        let floor = floor_root(m);
        let ceil = ceil_root(m);
        let guess = estimate(m);
        let f = floor as u128;
        assert!(rt; f * f <= m && m < (f + 1) * (f + 1), "floor root of {m}");
        assert!(rt;
            ceil == floor && f * f == m || ceil == floor + 1 && f * f < m,
            "ceil root of {m}"
        );
        assert!(rt;
            guess == floor || guess == floor + 1 || guess == 0 && is_below_a_power_of_4(m),
            "estimate of the root of {m}"
        );
    }
}

fn check_near(rt: &impl Abort, m: u128) {
    check(rt, m.saturating_sub(1));
    check(rt, m);
    check(rt, m.saturating_add(1));
}

#[test]
fn every_length(rt: HostRuntime) {
    let mut power: u128 = 1;
    let mut random: u64 = 88_172_645_463_325_252;
    for length in 0..126u32 {
        check_near(&rt, power);
        power = power.wrapping_mul(2);
        for _ in 0..200 {
            random = random
                .wrapping_mul(6_364_136_223_846_793_005)
                .wrapping_add(1_442_695_040_888_963_407);
            let root = (random >> (length / 2)) as u128;
            check_near(&rt, root.wrapping_mul(root));
            check_near(
                &rt,
                (random as u128).wrapping_mul(0x9E37_79B9_7F4A_7C15) >> length,
            );
        }
    }
}
