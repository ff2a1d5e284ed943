//! The radius of a demand point in the bounds of a square and in the costs of a site.

ghost use Rattle.std.specs.Prelude.{◌≡◌, ℕ, ◌+◌, ◌*◌, ◌/◌, ◌^◌, ◌≤◌, pos, ◌≤ℤ◌, int_lt};
ghost use Rattle.std.specs.Prelude.{if◌then◌else◌, MatchOption, ⊤};
ghost use Rattle.std.proofs.Common.{lit≤};
ghost use Rattle.siting_definitions.specs.Root as roots;
ghost use Rattle.siting_definitions.specs.Point.{point_of};
ghost use Rattle.siting_definitions.specs.Instance as instances;
ghost use Rattle.siting_definitions.specs.Instance.{DemandPt};
ghost use Rattle.siting_definitions.specs.declared.TheConstants.{CUTOFF_LIMIT, UNIT};
ghost use Rattle.siting_definitions.specs.Cost as costs;
ghost use Rattle.siting_definitions.specs.Bounds as bounds;
ghost use Rattle.dist_bounds.specs.Limits.{longest};

use dist_bounds::{distance2, near_or_far2};
use dyadic_square::Square;
use exact_geometry::Place;
use root_enclosure::{both_roots, root_rounded};
use site_model::{DemandPt, Site};
use siting_definitions::UNIT;

/// Units of a fine radius in a grid unit, squared.
const FINE_UNITS_SQUARED: u128 = 0x1_0000_0000;

/// Units of a fine radius in a length.
const FINE_UNITS: u64 = 0x1_0000_0000;

/// A radius for each demand point.
pub(crate) trait Radii {
    ghost radius_of: { Self → DemandPt → ℕ };

    ghost limit: { ℕ };

    /// The radius of `d`.
    fn radius(&self, d: DemandPt) -> u64
        ensures value { result ≡ radius_of self.now d }
        ensures size { result ≤ limit };

    ghost is_small: { limit ≤ 2 ^ 55 };
}

/// Two radii for each demand point, of which the second is in 1/UNIT of a grid unit.
pub(crate) trait TwoRadii {
    ghost first_of: { Self → DemandPt → ℕ };

    ghost second_of: { Self → DemandPt → ℕ };

    ghost first_limit: { ℕ };

    /// Both radii of `d`.
    fn radii(&self, d: DemandPt) -> (u64, u64)
        ensures first { result.0 ≡ first_of self.now d }
        ensures second { result.1 ≡ second_of self.now d }
        ensures first_size { result.0 ≤ first_limit }
        ensures second_size { result.1 ≤ UNIT * longest };

    ghost is_small: { first_limit ≤ 2 ^ 55 };
}

/// In grid units: those of the coarse bound of a square.
#[derive(Clone, Copy)]
pub(crate) struct CoarseRadii(pub(crate) Square);

impl Radii for CoarseRadii {
    ghost radius_of = { λ s d. bounds.coarse_radius s.0 d };

    ghost limit = { longest };

    ghost is_small = { lit≤ tt };

    #[inline(always)]
    fn radius(&self, d: DemandPt) -> u64 {
        bound_radii(self.0, d).0
    }
}

/// In 1/UNIT of a grid unit: those of the fine bound of a square.
#[derive(Clone, Copy)]
pub(crate) struct FineRadii(pub(crate) Square);

impl Radii for FineRadii {
    ghost radius_of = { λ s d. bounds.fine_radius s.0 d };

    ghost limit = { UNIT * longest };

    ghost is_small = { lit≤ tt };

    #[inline(always)]
    fn radius(&self, d: DemandPt) -> u64 {
        fine_radius(self.0, d)
    }
}

/// In 1/UNIT of a grid unit: those of the upper cost of a site.
#[derive(Clone, Copy)]
pub(crate) struct UpperRadii(pub(crate) Site);

impl Radii for UpperRadii {
    ghost radius_of = { λ s d. bounds.upper_radius s.0 d };

    ghost limit = { UNIT * longest };

    ghost is_small = { lit≤ tt };

    #[inline(always)]
    fn radius(&self, d: DemandPt) -> u64 {
        upper_radius(self.0, d)
    }
}

/// Those of the coarse bound of a square, and those of the fine one.
#[derive(Clone, Copy)]
pub(crate) struct BoundRadii(pub(crate) Square);

impl TwoRadii for BoundRadii {
    ghost first_of = { λ s d. bounds.coarse_radius s.0 d };

    ghost second_of = { λ s d. bounds.fine_radius s.0 d };

    ghost first_limit = { longest };

    ghost is_small = { lit≤ tt };

    #[inline(always)]
    fn radii(&self, d: DemandPt) -> (u64, u64) {
        bound_radii(self.0, d)
    }
}

/// Those of the lower cost of a site, and those of the upper one.
#[derive(Clone, Copy)]
pub(crate) struct SiteRadii(pub(crate) Site);

impl TwoRadii for SiteRadii {
    ghost first_of = { λ s d. bounds.lower_radius s.0 d };

    ghost second_of = { λ s d. bounds.upper_radius s.0 d };

    ghost first_limit = { UNIT * longest };

    ghost is_small = { lit≤ tt };

    #[inline(always)]
    fn radii(&self, d: DemandPt) -> (u64, u64) {
        enclosing_radii(self.0, d)
    }
}

/// Those of the fine bound of a square, and those of the upper cost of a site.
#[derive(Clone, Copy)]
pub(crate) struct BoundAndCostRadii(pub(crate) Square, pub(crate) Site);

impl TwoRadii for BoundAndCostRadii {
    ghost first_of = { λ s d. bounds.fine_radius s.0 d };

    ghost second_of = { λ s d. bounds.upper_radius s.1 d };

    ghost first_limit = { UNIT * longest };

    ghost is_small = { lit≤ tt };

    #[inline(always)]
    fn radii(&self, d: DemandPt) -> (u64, u64) {
        (fine_radius(self.0, d), upper_radius(self.1, d))
    }
}

/// The radius of `d` in the fine bound of a square, in 1/UNIT of a grid unit: the root of the least
/// squared distance to the closed square, rounded down, where the point attracts, and that of the
/// greatest, rounded up, where it repels, or the cutoff if that is less. It is below 2^55.
#[inline(always)]
pub fn fine_radius(sq: Square, d: DemandPt) -> u64
    ensures value { result ≡ bounds.fine_radius sq d }
    ensures size { result ≤ UNIT * longest }
{
    let repels = !attracts(d);
    let root = fine_root(near_or_far2(sq, place_of(d), repels), repels);
    capped_radius(d.cutoff, root)
}

/// The radii of `d` in the coarse and in the fine bound of a square: the coarse one is the fine one
/// in grid units, rounded as that is.
#[inline(always)]
fn bound_radii(sq: Square, d: DemandPt) -> (u64, u64)
    ensures coarse { result.0 ≡ bounds.coarse_radius sq d }
    ensures fine { result.1 ≡ bounds.fine_radius sq d }
    ensures coarse_size { result.0 ≤ longest }
    ensures fine_size { result.1 ≤ UNIT * longest }
{
    let fine = fine_radius(sq, d);
    (in_grid_units(fine, !attracts(d)), fine)
}

/// The radius of `d` in the upper cost of a site, in 1/UNIT of a grid unit.
#[inline(always)]
fn upper_radius(site: Site, d: DemandPt) -> u64
    ensures value { result ≡ bounds.upper_radius site d }
    ensures size { result ≤ UNIT * longest }
{
    let squared = squared_distance(site, d);
    capped_radius(d.cutoff, fine_root(squared, attracts(d)))
}

/// The radii of `d` in the lower and in the upper cost of a site, in 1/UNIT of a grid unit.
#[inline(always)]
fn enclosing_radii(site: Site, d: DemandPt) -> (u64, u64)
    ensures lower { result.0 ≡ bounds.lower_radius site d }
    ensures upper { result.1 ≡ bounds.upper_radius site d }
    ensures lower_size { result.0 ≤ UNIT * longest }
    ensures upper_size { result.1 ≤ UNIT * longest }
{
    let (floor, ceil) = enclosing_roots(squared_distance(site, d));
    let floor = capped_radius(d.cutoff, floor);
    let ceil = capped_radius(d.cutoff, ceil);
    if d.w > 0 {
        (floor, ceil)
    } else {
        (ceil, floor)
    }
}

/// The place of a demand point.
#[inline(always)]
fn place_of(d: DemandPt) -> Place
    ensures { result ≡ instances.place_of d }
{
    Place::of(d.x, d.y)
}

/// The squared distance from a site to a demand point, in grid units squared.
#[inline(always)]
fn squared_distance(site: Site, d: DemandPt) -> u128
    ensures value { result ≡ costs.distance2 (instances.place_of d) (point_of site) }
    ensures size { result ≤ longest * longest }
{
    distance2(site.pt(), place_of(d))
}

/// Whether the point attracts.
#[inline(always)]
fn attracts(d: DemandPt) -> bool
    ensures { result ≡ int_lt (pos 0) d.w }
{
    d.w > 0
}

/// A radius in 1/UNIT of a grid unit, in grid units, rounded up if `up`, and else rounded down.
#[inline(always)]
fn in_grid_units(fine: u64, up: bool) -> u64
    requires { fine ≤ UNIT * longest }
    ensures value { result ≡ if up then (fine + 65535) / 65536 else fine / 65536 }
    ensures size { result ≤ longest }
{
    (fine + up as u64 * (UNIT - 1)) / UNIT
}

/// The root of a squared distance in grid units, rounded up if `up`, and else rounded down,
/// in 1/UNIT of a grid unit.
#[inline(always)]
fn fine_root(squared: u128, up: bool) -> u64
    requires { squared ≤ longest * longest }
    ensures value { result ≡ if up then roots.ceil_root (squared * 2 ^ 32)
        else roots.floor_root (squared * 2 ^ 32) }
    ensures size { result ≤ UNIT * longest }
{
    root_rounded(squared * FINE_UNITS_SQUARED, up)
}

/// The root of a squared distance in grid units, rounded down and rounded up,
/// in 1/UNIT of a grid unit.
#[inline(always)]
fn enclosing_roots(squared: u128) -> (u64, u64)
    requires { squared ≤ longest * longest }
    ensures floor { result.0 ≡ roots.floor_root (squared * 2 ^ 32) }
    ensures ceil { result.1 ≡ roots.ceil_root (squared * 2 ^ 32) }
    ensures floor_size { result.0 ≤ UNIT * longest }
    ensures ceil_size { result.1 ≤ UNIT * longest }
{
    both_roots(squared * FINE_UNITS_SQUARED)
}

/// The lesser of a radius in 1/UNIT of a grid unit and the cutoff, where there is one.
#[inline(always)]
fn capped_radius(cutoff: Option<i32>, radius: u64) -> u64
    requires { MatchOption cutoff ⊤ (λ c. (pos 1 ≤ℤ c) × (c ≤ℤ pos CUTOFF_LIMIT)) }
    ensures value { result ≡ bounds.capped cutoff (2 ^ 32) radius }
    ensures size { result ≤ radius }
{
    match cutoff {
        Some(cutoff) => radius.min(FINE_UNITS * cutoff as u64),
        None => radius,
    }
}
