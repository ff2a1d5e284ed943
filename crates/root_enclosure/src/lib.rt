//! Whole square roots of 128-bit numbers, rounded down and rounded up.
//!
//! Each call makes one estimate, by multiplications alone, and tests it. An estimate that is
//! neither the root nor one above it costs a search and never a wrong answer, so nothing is proved
//! of it.
#![tactic(auto)]

ghost use Rattle.std.specs.Prelude.{◌≡◌, ℕ, ◌+◌, ◌*◌, ◌/◌, ◌%◌, ◌^◌, ◌<◌, ◌≤◌};
ghost use Rattle.std.specs.Prelude.{if◌then◌else◌};
ghost use Rattle.siting_definitions.specs.Root.{floor_root, ceil_root, IsFloorRoot, IsCeilRoot};

mod estimate;
#[cfg(test)]
mod tests;

use estimate::estimate;

/// The root of m, rounded down: the f with `f^2 <= m < (f + 1)^2`. `m < 2^126`, and the root is
/// below 2^63.
#[inline(always)]
pub fn floor_root(m: u128) -> u64
    requires { m < 2 ^ 126 }
    ensures value { result ≡ floor_root m }
    ensures encloses { IsFloorRoot m result }
    ensures size { result < 2 ^ 63 }
{
    let (root, _) = root_and_rest(m);
    root
}

/// The root of m, rounded up: the least c with `c^2 >= m`. `m < 2^126`, and
/// the root is at most 2^63.
#[inline(always)]
pub fn ceil_root(m: u128) -> u64
    requires { m < 2 ^ 126 }
    ensures value { result ≡ ceil_root m }
    ensures encloses { IsCeilRoot m result }
    ensures size { result ≤ 2 ^ 63 }
{
    both_roots(m).1
}

/// The root of m, rounded up if `up`, and else rounded down. `m < 2^126`, and the root is at most
/// 2^63.
#[inline(always)]
pub fn root_rounded(m: u128, up: bool) -> u64
    requires { m < 2 ^ 126 }
    ensures value { result ≡ if up then ceil_root m else floor_root m }
    ensures size { result ≤ 2 ^ 63 }
{
    let (root, rest) = root_and_rest(m);
    root + (up & (rest > 0)) as u64
}

/// The root of m, rounded down, and rounded up. `m < 2^126`, and each is at most 2^63.
#[inline(always)]
pub fn both_roots(m: u128) -> (u64, u64)
    requires { m < 2 ^ 126 }
    ensures floor { result.0 ≡ floor_root m }
    ensures ceil { result.1 ≡ ceil_root m }
    ensures floor_size { result.0 < 2 ^ 63 }
    ensures ceil_size { result.1 ≤ 2 ^ 63 }
{
    let (root, rest) = root_and_rest(m);
    (root, root + (rest > 0) as u64)
}

/// Every number has a root of each kind, however large it is.
pub fn every_number_has_its_roots()
    ensures floor { (m : ℕ) → IsFloorRoot m (floor_root m) }
    ensures ceil { (m : ℕ) → IsCeilRoot m (ceil_root m) }
{}

/// No number has another root of either kind.
pub fn each_root_is_the_only_one()
    ensures floor { (m f : ℕ) → IsFloorRoot m f → f ≡ floor_root m }
    ensures ceil { (m c : ℕ) → IsCeilRoot m c → c ≡ ceil_root m }
{}

/// A root in units of which 65536 make one, divided by 65536 and rounded the same way, is the root
/// in whole units.
pub fn a_root_in_finer_units_gives_the_root()
    ensures floor { (m : ℕ) → floor_root (m * 2 ^ 32) / 65536 ≡ floor_root m }
    ensures ceil { (m : ℕ) → (ceil_root (m * 2 ^ 32) + 65535) / 65536 ≡ ceil_root m }
{}

/// The root of m, rounded down, and what its square leaves of m.
#[inline(always)]
fn root_and_rest(m: u128) -> (u64, u64)
    requires { m < 2 ^ 126 }
    ensures encloses { IsFloorRoot m result.0 }
    ensures size { result.0 < 2 ^ 63 }
    ensures rest { result.0 * result.0 + result.1 ≡ m }
{
    let root = estimate(m);
    let left = m.wrapping_sub(root as u128 * root as u128);
    let (over, rest) = halves(left);
    if over == 0 && rest <= root.wrapping_mul(2) {
        (root, rest)
    } else {
        root_by_search(left, root)
    }
}

/// The upper and the lower half of a number.
#[inline(always)]
fn halves(n: u128) -> (u64, u64)
    ensures { result.0 * 2 ^ 64 + result.1 ≡ n }
{
    ((n >> 64) as u64, (n & 0xFFFF_FFFF_FFFF_FFFF) as u64)
}

/// The same of the number that is `left` more than the estimate's square, modulo 2^128, where the
/// estimate isn't its root. So the number is needed no more where the estimate is right.
#[cold]
#[inline(never)]
fn root_by_search(left: u128, estimate: u64) -> (u64, u64)
    requires { (left + estimate * estimate) % 2 ^ 128 < 2 ^ 126 }
    ensures encloses { IsFloorRoot ((left + estimate * estimate) % 2 ^ 128) result.0 }
    ensures size { result.0 < 2 ^ 63 }
    ensures rest { result.0 * result.0 + result.1 ≡ (left + estimate * estimate) % 2 ^ 128 }
{
    let m = left.wrapping_add(estimate as u128 * estimate as u128);
    let root = root_below(m, estimate);
    (root, (m - root as u128 * root as u128) as u64)
}

/// The root of m, rounded down, where the estimate isn't it: one less, or else what a search finds.
fn root_below(m: u128, estimate: u64) -> u64
    requires { m < 2 ^ 126 }
    ensures encloses { IsFloorRoot m result }
    ensures size { result < 2 ^ 63 }
{
    let below = estimate.saturating_sub(1);
    let rest = m.wrapping_sub(below as u128 * below as u128);
    if rest <= 2 * below as u128 {
        below
    } else {
        m.isqrt() as u64
    }
}
