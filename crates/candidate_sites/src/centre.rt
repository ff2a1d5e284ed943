//! The centre site of a square.

ghost use Rattle.std.specs.Prelude.{◌≡◌, ℤ, IsTrue, IfSome, option_map};
ghost use Rattle.siting_definitions.specs.Point as points;
ghost use Rattle.siting_definitions.specs.Point.{point_of};
ghost use Rattle.siting_definitions.specs.Answer.{IsSite};
ghost use Rattle.siting_definitions.specs.Permitted.{permits};
ghost use Rattle.siting_definitions.specs.Sites.{centre_cost, centre_site_of};

use crate::site::site_at;
use dyadic_square::Square;
use objectives::upper_cost;
use site_model::{Instance, Site};

/// The centre of a square: none exactly where the square's level is 0 or its centre isn't
/// permitted.
pub fn permitted_centre(instance: &Instance, sq: Square) -> Option<Site>
    ensures site { result ≡ centre_site_of instance.now sq }
    ensures permitted { IfSome result (λ z. IsTrue (permits instance.now (point_of z))) }
    ensures limits { IfSome result (λ z. IsSite z) }
{
    if sq.level == 0 {
        return None;
    }
    let centre = sq.centre();
    if !instance.permits(centre) {
        return None;
    }
    Some(site_at(centre))
}

/// The centre of a square with its upper cost, in cost units: none exactly where the square's level
/// is 0 or its centre isn't permitted.
pub fn centre_site(instance: &Instance, sq: Square) -> Option<(Site, i64)>
    ensures site { option_map (λ (b : points.Pt × ℤ). b.0) result ≡ centre_site_of instance.now sq }
    ensures cost { option_map (λ (b : points.Pt × ℤ). b.1) result ≡ centre_cost instance.now sq }
    ensures permitted { IfSome result (λ b. IsTrue (permits instance.now (point_of b.0))) }
    ensures limits { IfSome result (λ b. IsSite b.0) }
{
    match permitted_centre(instance, sq) {
        Some(site) => Some((site, upper_cost(instance, site))),
        None => None,
    }
}
