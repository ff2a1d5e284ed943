//! The two costs of a site.

ghost use Rattle.std.specs.Prelude.{◌≡◌, ◌≤ℤ◌};
ghost use Rattle.siting_definitions.specs.Point.{point_of};
ghost use Rattle.siting_definitions.specs.Cost.{CostAtLeast, CostAtMost};
ghost use Rattle.siting_definitions.specs.Bounds.{fine_of, lower_of, upper_of};
ghost use Rattle.objectives.specs.Limits.{IsCost};

use crate::passes::{total_of, totals_of};
use crate::radii::{BoundAndCostRadii, SiteRadii, UpperRadii};
use crate::rounding::{round_down, round_up};
use dyadic_square::Square;
use site_model::{Instance, Site};

/// The lower and the upper cost of a site, in cost units, which enclose its cost. Each is at most
/// 7,712 * 10^15 in size, so below 2^63.
pub fn cost_of(instance: &Instance, site: Site) -> (i64, i64)
    ensures lower { result.0 ≡ lower_of instance.now site }
    ensures upper { result.1 ≡ upper_of instance.now site }
    ensures at_least { CostAtLeast instance.now (point_of site) result.0 }
    ensures at_most { CostAtMost instance.now (point_of site) result.1 }
    ensures ordered { result.0 ≤ℤ result.1 }
    ensures lower_size { IsCost result.0 }
    ensures upper_size { IsCost result.1 }
{
    let (lower, upper) = totals_of(instance, &SiteRadii(site));
    (round_down(lower), round_up(upper))
}

/// The upper cost of a site, in cost units: the site costs at most as much. It is at most
/// 7,712 * 10^15 in size, so below 2^63.
pub fn upper_cost(instance: &Instance, site: Site) -> i64
    ensures value { result ≡ upper_of instance.now site }
    ensures at_most { CostAtMost instance.now (point_of site) result }
    ensures size { IsCost result }
{
    round_up(total_of(instance, &UpperRadii(site)))
}

/// The fine bound of a square and the upper cost of a site, in cost units, in one pass over the
/// points. Each is at most 7,712 * 10^15 in size, so below 2^63.
pub fn fine_and_upper(instance: &Instance, sq: Square, site: Site) -> (i64, i64)
    ensures fine { result.0 ≡ fine_of instance.now sq }
    ensures upper { result.1 ≡ upper_of instance.now site }
    ensures fine_size { IsCost result.0 }
    ensures upper_size { IsCost result.1 }
{
    let (fine, upper) = totals_of(instance, &BoundAndCostRadii(sq, site));
    (round_down(fine), round_up(upper))
}
