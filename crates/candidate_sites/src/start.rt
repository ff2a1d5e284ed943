//! A cost from which the search for the opening begins.

ghost use Rattle.std.specs.Prelude.{◌≡◌, ◌++◌, ◌≤◌, ◌^◌, fold, None, IfSome, unsigned_abs};
ghost use Rattle.siting_definitions.specs.Sites.{vertices};
ghost use Rattle.candidate_sites.specs.Cheaper.{cheaper_vertex};
ghost use Rattle.candidate_sites.specs.Start.{cheaper_start, one_dearer};

use crate::cheapest::{MANY_VERTICES, cheaper_site};
use crate::site::site_at;
use convex_region::Polygon;
use site_model::{Instance, Site};

/// A site with a cost just above that of some permitted vertex, so that the first vertex of least
/// cost is found from it as from nothing. Of each polygon with many vertices one is priced.
pub(crate) fn start_of(instance: &Instance) -> Option<(Site, i64)>
    ensures { let vs = vertices instance.now.permitted ++ vertices instance.now.forbidden in
        fold (cheaper_vertex instance.now) result vs ≡ fold (cheaper_vertex instance.now) None vs }
{
    // Shows that the instance is within the limits.
    let _points = instance.points();
    let first = cheapest_start(instance, instance.permitted(), None);
    one_dearer(cheapest_start(instance, instance.forbidden(), first))
}

/// The same site at a cost of one cost unit more.
fn one_dearer(found: Option<(Site, i64)>) -> Option<(Site, i64)>
    requires { IfSome found (λ b. unsigned_abs b.1 ≤ 2 ^ 62) }
    ensures { result ≡ one_dearer found }
{
    match found {
        Some((site, cost)) => Some((site, cost + 1)),
        None => None,
    }
}

/// The cheapest of the site that was found and of a vertex of each polygon with many vertices.
fn cheapest_start(
    instance: &Instance,
    polygons: &[Polygon],
    found: Option<(Site, i64)>,
) -> Option<(Site, i64)>
    ensures { result ≡ fold (cheaper_start instance.now) found polygons.now }
{
    let mut cheapest = found;
    for polygon in polygons {
        cheapest = cheaper_start(instance, polygon, cheapest);
    }
    cheapest
}

/// The cheaper of the site that was found and the first vertex of a polygon with many vertices.
fn cheaper_start(
    instance: &Instance,
    polygon: &Polygon,
    found: Option<(Site, i64)>,
) -> Option<(Site, i64)>
    ensures { result ≡ cheaper_start instance.now found polygon.now }
{
    if polygon.len() < MANY_VERTICES {
        return found;
    }
    cheaper_site(instance, site_at(polygon.vertex(0).grid()), found)
}
