//! The verdict on a leased square.

ghost use Rattle.std.specs.Prelude.{◌≡◌, nat_lt, pos, ◌+ℤ◌, ◌-ℤ◌, ◌≤ℤ◌, ◌&&◌, not};
ghost use Rattle.siting_definitions.specs.declared.TheConstants.{WEIGHT_LIMIT, GAP_LIMIT};
ghost use Rattle.siting_definitions.specs.Instance.{weight};
ghost use Rattle.siting_definitions.specs.Marks as marks;
ghost use Rattle.pool_core.specs.Verdict as verdicts;
ghost use Rattle.pool_core.specs.Verdict.{finding_of, finding_of_coarse, finding_of_fine};

use crate::job::Job;
use crate::lease::Lease;
use dyadic_square::Square;
use exclusion::excluded;
use objectives::{coarse_and_fine, reaches};

/// What is found of a leased square. Each number is a bound, in cost units: where the pool is
/// sound, no point of the square costs less.
#[derive(Clone, Copy, Debug, PartialEq, Eq)]
pub enum Finding {
    /// No point of it is permitted.
    Excluded,
    /// The gap settles it, by this bound.
    Bounded(i64),
    /// Its fine bound is to decide: the square waits again with it.
    Raise(i64),
    /// It is to be split into its quarters, which wait with this bound.
    Part(i64),
    /// It has level 0, and the gap doesn't settle its fine bound.
    Floor(i64),
}

/// What is known of a leased square before it is judged: its bounds, in cost units.
#[derive(Clone, Copy, Debug, PartialEq, Eq)]
pub enum Bounds {
    /// It is excluded, so no point of it is permitted.
    Excluded,
    /// Its bound was raised: in a sound pool it is its fine bound.
    Raised(i64),
    /// Its bound wasn't raised.
    Both {
        /// The greater of its bound and its coarse bound.
        coarse: i64,
        /// Its fine bound.
        fine: i64,
    },
}

/// A finding, and what was seen of the incumbent for it.
#[derive(Clone, Copy, Debug, PartialEq, Eq)]
pub struct Verdict {
    /// The number of the incumbent that was seen, in cost units, if there was one.
    pub seen: Option<i64>,
    /// What was found with it.
    pub finding: Finding,
}

/// The bounds of a leased square, in one pass over the points where its bound wasn't raised.
#[tactic(auto, unfolding(crate::specs::Verdict::bounds_of))]
pub fn bounds_of(job: &Job, lease: &Lease) -> Bounds
    ensures { result ≡ verdicts.bounds_of job.now lease.now }
{
    let square = lease.square();
    let bound = lease.bound();
    if excluded(&job.instance, square) {
        Bounds::Excluded
    } else if lease.raised() {
        Bounds::Raised(bound)
    } else {
        let (coarse, fine) = coarse_and_fine(&job.instance, square);
        Bounds::Both {
            coarse: bound.max(coarse),
            fine,
        }
    }
}

/// The fine bound among the bounds of a square, in cost units; a raised bound is taken for it.
/// None exactly where the square is excluded.
pub fn fine_in(bounds: Bounds) -> Option<i64>
    ensures { result ≡ verdicts.fine_in bounds }
{
    match bounds {
        Bounds::Excluded => None,
        Bounds::Raised(bound) => Some(bound),
        Bounds::Both { coarse: _, fine } => Some(fine),
    }
}

/// The verdict on a leased square, after `seen` was seen of the incumbent, in cost units.
pub fn judge(job: &Job, lease: &Lease, seen: Option<i64>) -> Verdict
    ensures seen { result.seen ≡ seen }
    ensures finding { result.finding ≡ finding_of job.now lease.now seen }
{
    judge_by(job, lease, bounds_of(job, lease), seen)
}

/// The verdict on a leased square with these bounds, after `seen` was seen of the incumbent, in
/// cost units.
#[tactic(auto, using(crate::proofs::VerdictLemmas::finding_by_its_bounds))]
pub fn judge_by(job: &Job, lease: &Lease, bounds: Bounds, seen: Option<i64>) -> Verdict
    requires { bounds ≡ verdicts.bounds_of job.now lease.now }
    ensures seen { result.seen ≡ seen }
    ensures finding { result.finding ≡ finding_of job.now lease.now seen }
{
    Verdict {
        seen,
        finding: finding_by(job, lease.square(), bounds, seen),
    }
}

/// The finding on a square with these bounds.
fn finding_by(job: &Job, square: Square, bounds: Bounds, seen: Option<i64>) -> Finding
    ensures { result ≡ verdicts.finding_by job.now square bounds seen }
{
    match bounds {
        Bounds::Excluded => Finding::Excluded,
        Bounds::Raised(bound) => judge_fine(job, square, bound, seen),
        Bounds::Both { coarse, fine } => judge_coarse(job, square, coarse, fine, seen),
    }
}

/// The finding on a square with its fine bound, in cost units.
fn judge_fine(job: &Job, square: Square, bound: i64, seen: Option<i64>) -> Finding
    ensures { result ≡ finding_of_fine job.now square bound seen }
{
    if reaches(seen, bound, job.gap) {
        Finding::Bounded(bound)
    } else if square.level == 0 {
        Finding::Floor(bound)
    } else {
        Finding::Part(bound)
    }
}

/// The finding on a square with a bound, in cost units, that is at most its fine bound, and less by
/// less than the instance's weight.
fn judge_coarse(job: &Job, square: Square, bound: i64, fine: i64, seen: Option<i64>) -> Finding
    ensures { result ≡ finding_of_coarse job.now square bound fine seen }
{
    if reaches(seen, bound, job.gap) {
        Finding::Bounded(bound)
    } else if is_for_parting(job, square, bound, seen) {
        Finding::Part(bound)
    } else {
        Finding::Raise(fine)
    }
}

/// Whether a square is to be split before its fine bound is known: it can be split, and no fine
/// bound would settle it.
fn is_for_parting(job: &Job, square: Square, bound: i64, seen: Option<i64>) -> bool
    ensures { result ≡ (nat_lt 0 square.level
        && not (marks.reaches seen
        (((bound +ℤ pos (weight job.now.instance.points)) -ℤ pos 1) +ℤ job.now.gap))) }
{
    square.level > 0 && !reaches_beyond(seen, bound, job.instance.weight(), job.gap)
}

/// Whether there is a least upper cost, and it is at most the sum of a bound, a weight less 1, and
/// the gap, all in cost units.
fn reaches_beyond(least: Option<i64>, bound: i64, weight: i64, gap: i64) -> bool
    requires weight_least { pos 0 ≤ℤ weight }
    requires weight_most { weight ≤ℤ pos WEIGHT_LIMIT }
    requires gap_least { pos 0 ≤ℤ gap }
    requires gap_most { gap ≤ℤ pos GAP_LIMIT }
    ensures { result ≡ marks.reaches least (((bound +ℤ weight) -ℤ pos 1) +ℤ gap) }
{
    reaches(least, bound, weight - 1 + gap)
}
