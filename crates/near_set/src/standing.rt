//! How a square stands to the near set of a cost.

ghost use Rattle.std.specs.Prelude.{◌≡◌, false};
ghost use Rattle.siting_definitions.specs.Excluded.{is_excluded};
ghost use Rattle.near_set.specs.Standing.{StandsAs, FitsBelow};

use crate::ceiling::{is_ceiling_within, rise_across};
use dyadic_square::Square;
use exclusion::excluded;
use objectives::fine;
use site_model::Instance;

/// How a square stands to the near set of a cost.
#[derive(Clone, Copy)]
pub(crate) enum Standing {
    /// It isn't near, and so no square below it is.
    Far,
    /// It is near.
    Near,
    /// It is near, and none of its points costs more.
    Inside,
}

/// The standing of a square to the near set of `cost`, which is in cost units. `above` is the
/// standing of a square that it lies in, or `Near` where there is none: below one inside no bound
/// is taken.
pub(crate) fn standing_of(instance: &Instance, cost: i64, sq: Square, above: Standing) -> Standing
    requires { FitsBelow instance.now cost sq above }
    ensures { StandsAs instance.now cost sq result }
{
    if excluded(instance, sq) {
        return Standing::Far;
    }
    match above {
        Standing::Inside => Standing::Inside,
        Standing::Far | Standing::Near => standing_by_bound(instance, cost, sq),
    }
}

/// The standing of a square that isn't excluded, by its fine bound.
fn standing_by_bound(instance: &Instance, cost: i64, sq: Square) -> Standing
    requires { is_excluded instance.now sq ≡ false }
    ensures { StandsAs instance.now cost sq result }
{
    let bound = fine(instance, sq);
    if bound > cost {
        Standing::Far
    } else if is_ceiling_within(bound, rise_across(instance, sq), cost) {
        Standing::Inside
    } else {
        Standing::Near
    }
}
