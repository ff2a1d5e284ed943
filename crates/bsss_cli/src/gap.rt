//! The gap asked.

ghost use Rattle.std.specs.Prelude.{◌≡◌, ◌≤◌, ◌*◌, ◌/◌, ◌^◌, pos, ◌≤ℤ◌, unsigned_abs, option_map};
ghost use Rattle.std.specs.Prelude.{IfSome};
ghost use Rattle.siting_definitions.specs.Sites as sites;
ghost use Rattle.command_line.specs.Command.{IsGapRule};

use site_model::Site;
use siting_definitions::{GapRule, UNIT};

/// The gap asked, in cost units, by the rule and the opening with its upper cost. Without an
/// opening it is 65536 cost units, unless it is fixed.
pub fn gap_of(rule: GapRule, opening: Option<(Site, i64)>) -> i64
    requires rule { IsGapRule rule }
    requires opening { IfSome opening (λ b. unsigned_abs b.1 ≤ 2 ^ 62) }
    ensures value { result ≡ sites.gap_of rule (option_map (λ o. o.1) opening) }
    ensures least { (pos 0) ≤ℤ result }
    ensures most { result ≤ℤ pos (2 ^ 62) }
{
    match rule {
        GapRule::Fixed(gap) => gap,
        GapRule::Ppm(ppm) => match opening {
            None => UNIT as i64,
            Some((_, upper)) => share_of(upper, ppm),
        },
    }
}

/// So many millionths of the size of a cost, in cost units, rounded down.
fn share_of(upper: i64, ppm: u32) -> i64
    requires upper { unsigned_abs upper ≤ 2 ^ 62 }
    requires ppm { ppm ≤ 1000000 }
    ensures value { result ≡ pos (unsigned_abs upper * ppm / 1000000) }
    ensures most { result ≤ℤ pos (2 ^ 62) }
{
    (upper.unsigned_abs() as u128 * ppm as u128 / 1_000_000) as i64
}
