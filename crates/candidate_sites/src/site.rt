//! A site from a grid point.

ghost use Rattle.std.specs.Prelude.{◌≡◌};
ghost use Rattle.siting_definitions.specs.Answer.{IsSite};

use exact_geometry::Pt;
use site_model::Site;

/// The site at a grid point.
pub(crate) fn site_at(pt: Pt) -> Site
    requires { IsSite pt }
    ensures { result ≡ pt }
{
    Site::of(pt.x, pt.y)
}
