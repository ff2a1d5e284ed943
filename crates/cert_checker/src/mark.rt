//! The faults of a mark.

ghost use Rattle.std.specs.Prelude.{◌≡◌, ◌+ℤ◌, int_le, not, ◌||◌};
ghost use Rattle.siting_definitions.specs.Answer.{upper_cost};
ghost use Rattle.siting_definitions.specs.Bounds.{fine_of};
ghost use Rattle.siting_definitions.specs.Sites as sites;
ghost use Rattle.siting_definitions.specs.Sites.{opening_cost};
ghost use Rattle.siting_definitions.specs.Marks as marks;
ghost use Rattle.cert_checker.specs.Faults as faults;
ghost use Rattle.cert_checker.specs.Faults.{fault_of_mark, mark_fault_of};

use crate::faults::{
    BOUND_DIFFERS, CheckFault, NOT_SHUT, SPLIT_UNCALLED, WRONG_MARK, fault_at, value_fault,
};
use crate::head::is_at_most;
use answer_model::Head;
use candidate_sites::permitted_centre;
use dyadic_square::Square;
use exclusion::excluded;
use objectives::{fine, fine_and_upper, reaches};
use site_model::Instance;
use siting_definitions::Mark;

/// The first fault of the mark of a square, in this line: a mark other than X of a square that is
/// excluded or an X of one that isn't, a split that wasn't called for, a bound other than the
/// square's fine bound, or a letter that isn't the right one for it. None exactly where there is
/// none. `opening` is the upper cost of the instance's opening, in cost units, if there is one.
#[tactic(auto, unfolding(crate::specs::Faults::mark_fault_of))]
pub fn mark_fault(
    head: &Head,
    opening: Option<i64>,
    square: Square,
    mark: Mark,
    line: u64,
) -> Option<CheckFault>
    requires { opening ≡ opening_cost head.now.instance }
    ensures { result ≡ mark_fault_of head.now square mark line }
{
    match mark {
        Mark::Split(seen) => fault_of_split(head, opening, square, seen, line),
        Mark::Shut => fault_of_shut(head, square, line),
        Mark::Bounded(bound) => fault_of_bound(head, square, bound, mark, line),
        Mark::Floor(bound) => fault_of_bound(head, square, bound, mark, line),
        Mark::Left(bound) => fault_of_bound(head, square, bound, mark, line),
    }
}

/// The fault of the mark X.
fn fault_of_shut(head: &Head, square: Square, line: u64) -> Option<CheckFault>
    ensures { let h = head.now in
        result ≡ fault_of_mark h.instance h.gap (upper_cost h.best) square Mark.Shut line }
{
    if excluded(&head.instance, square) {
        return None;
    }
    Some(fault_at(NOT_SHUT, line))
}

/// The first fault of a split.
fn fault_of_split(
    head: &Head,
    opening: Option<i64>,
    square: Square,
    seen: Option<i64>,
    line: u64,
) -> Option<CheckFault>
    requires { opening ≡ opening_cost head.now.instance }
    ensures { let h = head.now in
        result ≡ fault_of_mark h.instance h.gap (upper_cost h.best) square (Mark.Split seen) line }
{
    if excluded(&head.instance, square) {
        return Some(fault_at(WRONG_MARK, line));
    }
    if is_uncalled(head, opening, square, seen) {
        return Some(fault_at(SPLIT_UNCALLED, line));
    }
    None
}

/// Whether a split wasn't called for after `seen` was seen.
fn is_uncalled(head: &Head, opening: Option<i64>, square: Square, seen: Option<i64>) -> bool
    requires { opening ≡ opening_cost head.now.instance }
    ensures { let h = head.now in
        result ≡ faults.is_uncalled h.instance h.gap (upper_cost h.best) square seen }
{
    if square.level == 0 {
        return true;
    }
    match seen {
        None => opening.is_some() || permitted_centre(&head.instance, square).is_some(),
        Some(seen) => is_wrongly_seen(head, opening, square, seen),
    }
}

/// Whether this number of the incumbent can't have been seen, or settled the square, or the opening
/// or the centre costs less. The costs that take a pass over the points come last, in one pass.
fn is_wrongly_seen(head: &Head, opening: Option<i64>, square: Square, seen: i64) -> bool
    requires { opening ≡ opening_cost head.now.instance }
    ensures { let i = head.now.instance in
        result ≡ (not (marks.reaches (upper_cost head.now.best) seen)
        || (faults.is_below (opening_cost i) seen
        || (int_le seen (fine_of i square +ℤ head.now.gap)
        || faults.is_below (sites.centre_cost i square) seen))) }
{
    if !is_at_most(head.upper_cost(), seen) {
        return true;
    }
    if is_below(opening, seen) {
        return true;
    }
    let (bound, centre) = fine_and_centre(&head.instance, square);
    reaches(Some(seen), bound, head.gap) || is_below(centre, seen)
}

/// Whether a cost is there and below another one.
fn is_below(cost: Option<i64>, other: i64) -> bool
    ensures { result ≡ faults.is_below cost other }
{
    match cost {
        None => false,
        Some(cost) => cost < other,
    }
}

/// The fine bound of a square, and the upper cost of its centre site, if it has one, in cost units.
fn fine_and_centre(instance: &Instance, square: Square) -> (i64, Option<i64>)
    ensures bound { result.0 ≡ fine_of instance.now square }
    ensures centre { result.1 ≡ sites.centre_cost instance.now square }
{
    match permitted_centre(instance, square) {
        Some(site) => {
            let (bound, upper) = fine_and_upper(instance, square, site);
            (bound, Some(upper))
        }
        None => (fine(instance, square), None),
    }
}

/// The first fault of a mark with a bound.
fn fault_of_bound(
    head: &Head,
    square: Square,
    bound: i64,
    mark: Mark,
    line: u64,
) -> Option<CheckFault>
    ensures { let h = head.now in
        result ≡ faults.bound_fault h.instance h.gap (upper_cost h.best) square bound mark line }
{
    if excluded(&head.instance, square) {
        return Some(fault_at(WRONG_MARK, line));
    }
    let own = fine(&head.instance, square);
    if bound != own {
        return Some(value_fault(BOUND_DIFFERS, line, Some(bound), Some(own)));
    }
    if !has_letter(head, square, bound, mark) {
        return Some(fault_at(WRONG_MARK, line));
    }
    None
}

/// Whether a leaf with this bound, which is its own, has the right letter.
fn has_letter(head: &Head, square: Square, bound: i64, mark: Mark) -> bool
    ensures { result ≡ faults.has_letter head.now.gap (upper_cost head.now.best) square bound mark }
{
    let is_settled = reaches(head.upper_cost(), bound, head.gap);
    match mark {
        Mark::Split(_) => false,
        Mark::Shut => false,
        Mark::Bounded(_) => is_settled,
        Mark::Floor(_) => !is_settled && square.level == 0,
        Mark::Left(_) => !is_settled && square.level != 0,
    }
}
