//! From units of 1/UNIT of a cost unit to cost units.

ghost use Rattle.std.specs.Prelude.{◌≡◌, ◌*◌, ◌≤◌, unsigned_abs};
ghost use Rattle.siting_definitions.specs.Integer as integers;
ghost use Rattle.siting_definitions.specs.declared.TheConstants.{UNIT, WEIGHT_LIMIT};
ghost use Rattle.dist_bounds.specs.Limits.{longest};
ghost use Rattle.objectives.specs.Limits.{IsCost};

/// A total in units of 1/UNIT of a cost unit, in cost units, rounded towards the lesser number.
pub(crate) fn round_down(total: i128) -> i64
    requires { unsigned_abs total ≤ WEIGHT_LIMIT * (UNIT * longest) }
    ensures value { result ≡ integers.round_down total }
    ensures size { IsCost result }
{
    (total >> 16) as i64
}

/// A total in units of 1/UNIT of a cost unit, in cost units, rounded towards the greater number.
pub(crate) fn round_up(total: i128) -> i64
    requires { unsigned_abs total ≤ WEIGHT_LIMIT * (UNIT * longest) }
    ensures value { result ≡ integers.round_up total }
    ensures size { IsCost result }
{
    -((-total >> 16) as i64)
}
