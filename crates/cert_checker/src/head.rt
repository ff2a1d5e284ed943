//! The faults of a head that is of its form.

ghost use Rattle.std.specs.Prelude.{◌≡◌, ◌≤◌, IfOk, Some};
ghost use Rattle.std.specs.Result.{result_err};
ghost use Rattle.siting_definitions.specs.Answer.{upper_cost};
ghost use Rattle.siting_definitions.specs.Sites as sites;
ghost use Rattle.siting_definitions.specs.Marks as marks;
ghost use Rattle.cert_checker.specs.Faults as faults;
ghost use Rattle.cert_checker.specs.Faults.{best_fault, cost_line_of, head_fault_of, site_line_of};
ghost use Rattle.cert_checker.specs.Faults.{worse_fault};

use crate::faults::{COST_DIFFERS, CheckFault, SITE_OUTSIDE, SITE_WORSE, fault_at, value_fault};
use answer_model::Head;
use candidate_sites::opening;
use objectives::cost_of;
use site_model::{Instance, Site};

/// The first fault of a head that is of its form, with its line: its site isn't permitted, its
/// costs aren't those of the site, or the opening costs less than the site. None exactly where
/// there is none.
pub fn head_fault(head: &Head) -> Option<CheckFault>
    ensures { result ≡ head_fault_of head.now }
{
    opening_or_fault(head).err()
}

/// The upper cost of the instance's opening, in cost units, if there is one; or the first fault of
/// the head. To find the opening takes long, so it is looked for only where the site has no fault
/// of its own.
#[tactic(auto, unfolding(crate::specs::Faults::head_fault_of))]
pub fn opening_or_fault(head: &Head) -> Result<Option<i64>, CheckFault>
    ensures opening { IfOk result (λ opening. opening ≡ sites.opening_cost head.now.instance) }
    ensures fault { result_err result ≡ head_fault_of head.now }
{
    if let Some(fault) = fault_of_best(head) {
        return Err(fault);
    }
    let opening = opening_cost(&head.instance);
    match fault_beside(head, opening) {
        Some(fault) => Err(fault),
        None => Ok(opening),
    }
}

/// The upper cost of the instance's opening, in cost units, if there is one.
pub(crate) fn opening_cost(instance: &Instance) -> Option<i64>
    ensures { result ≡ sites.opening_cost instance.now }
{
    match opening(instance) {
        Some((_, upper)) => Some(upper),
        None => None,
    }
}

/// The first fault of the site and its costs.
fn fault_of_best(head: &Head) -> Option<CheckFault>
    ensures { result ≡ best_fault head.now.instance head.now.best }
{
    match head.best() {
        None => None,
        Some((site, lower, upper)) => fault_of_priced(&head.instance, site, lower, upper),
    }
}

/// The first fault of a site with these costs.
fn fault_of_priced(instance: &Instance, site: Site, lower: i64, upper: i64) -> Option<CheckFault>
    ensures { result
        ≡ best_fault instance.now
        (Some (record { site = site; lower = lower; upper = upper })) }
{
    if !instance.permits(site.pt()) {
        return Some(fault_at(SITE_OUTSIDE, site_line(instance)));
    }
    let (own_lower, own_upper) = cost_of(instance, site);
    match cost_fault(instance, lower, own_lower) {
        Some(fault) => Some(fault),
        None => cost_fault(instance, upper, own_upper),
    }
}

/// The fault of a cost that isn't the site's own.
fn cost_fault(instance: &Instance, has: i64, wants: i64) -> Option<CheckFault>
    ensures { result ≡ faults.cost_fault instance.now has wants }
{
    if has == wants {
        return None;
    }
    Some(value_fault(COST_DIFFERS, cost_line(instance), Some(has), Some(wants)))
}

/// The fault of an opening that costs less than the site, or that there is without a site.
fn fault_beside(head: &Head, opening: Option<i64>) -> Option<CheckFault>
    ensures { result ≡ worse_fault head.now.instance (upper_cost head.now.best) opening }
{
    let opening = opening?;
    let upper = head.upper_cost();
    if is_at_most(upper, opening) {
        return None;
    }
    Some(value_fault(SITE_WORSE, cost_line(&head.instance), upper, Some(opening)))
}

/// Whether a cost is there and at most another one.
pub(crate) fn is_at_most(cost: Option<i64>, other: i64) -> bool
    ensures { result ≡ marks.reaches cost other }
{
    match cost {
        None => false,
        Some(cost) => cost <= other,
    }
}

/// The number of the line of the site.
fn site_line(instance: &Instance) -> u64
    ensures value { result ≡ site_line_of instance.now }
    ensures small { result ≤ 10000 }
{
    let lines = 3
        + instance.points().len()
        + instance.permitted().len()
        + instance.forbidden().len();
    lines as u64 + 5
}

/// The number of the line of its costs.
fn cost_line(instance: &Instance) -> u64
    ensures { result ≡ cost_line_of instance.now }
{
    site_line(instance) + 1
}
