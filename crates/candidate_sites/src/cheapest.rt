//! The opening.

ghost use Rattle.std.specs.Prelude.{◌≡◌, ℤ, ◌≤◌, ◌≤ℤ◌, ◌^◌, IsTrue, IfSome, All, true};
ghost use Rattle.std.specs.Prelude.{fold, option_map, unsigned_abs};
ghost use Rattle.siting_definitions.specs.Point.{Pt, grid, point_of};
ghost use Rattle.siting_definitions.specs.Permitted.{permits};
ghost use Rattle.siting_definitions.specs.Answer.{IsSite};
ghost use Rattle.siting_definitions.specs.Bounds.{upper_of};
ghost use Rattle.siting_definitions.specs.Sites.{opening_cost, opening_of, vertices};
ghost use Rattle.candidate_sites.specs.Cheaper.{cheaper_site, cheaper_vertex};

use crate::site::site_at;
use crate::start::start_of;
use convex_region::Polygon;
use objectives::{fine, upper_cost};
use site_model::{Instance, Site, square_round};

/// The fewest vertices of a polygon that is bounded before they are priced. Its bound and its start
/// take as long as the prices of two vertices.
pub(crate) const MANY_VERTICES: usize = 16;

/// The permitted vertex of least upper cost, over permitted polygons and then forbidden ones, with
/// that cost, in cost units: the first one wins a tie. None exactly where no vertex is permitted.
pub fn opening(instance: &Instance) -> Option<(Site, i64)>
    ensures site { option_map (λ (b : Pt × ℤ). b.0) result ≡ opening_of instance.now }
    ensures cost { option_map (λ (b : Pt × ℤ). b.1) result ≡ opening_cost instance.now }
    ensures permitted { IfSome result (λ b. IsTrue (permits instance.now (point_of b.0))) }
    ensures limits { IfSome result (λ b. IsSite b.0) }
    ensures small { IfSome result (λ b. unsigned_abs b.1 ≤ 2 ^ 62) }
{
    // Shows that the instance is within the limits.
    let _points = instance.points();
    let start = start_of(instance);
    let found = cheapest_of_polygons(instance, instance.permitted(), start);
    cheapest_of_polygons(instance, instance.forbidden(), found)
}

/// The cheapest of the site that was found and the polygons' vertices.
fn cheapest_of_polygons(
    instance: &Instance,
    polygons: &[Polygon],
    found: Option<(Site, i64)>,
) -> Option<(Site, i64)>
    ensures { result ≡ fold (cheaper_vertex instance.now) found (vertices polygons.now) }
{
    let mut cheapest = found;
    for polygon in polygons {
        cheapest = cheapest_of_polygon(instance, polygon, cheapest);
    }
    cheapest
}

/// The cheapest of the site that was found and the polygon's vertices. Many vertices are priced
/// only where the polygon's bound doesn't show that none of them is cheaper.
fn cheapest_of_polygon(
    instance: &Instance,
    polygon: &Polygon,
    found: Option<(Site, i64)>,
) -> Option<(Site, i64)>
    ensures { result ≡ fold (cheaper_vertex instance.now) found polygon.now }
{
    if polygon.len() >= MANY_VERTICES && is_bounded(instance, polygon, &found) {
        return found;
    }
    cheapest_of_vertices(instance, polygon, found)
}

/// Whether a site was found, and the polygon's bound is at least its cost.
fn is_bounded(instance: &Instance, polygon: &Polygon, found: &Option<(Site, i64)>) -> bool
    ensures { result ≡ true → fold (cheaper_vertex instance.now) found.now polygon.now ≡ found.now }
{
    match found {
        Some((_, least)) => *least <= bound_of(instance, polygon),
        None => false,
    }
}

/// The fine bound of a square that holds the polygon's vertices: none of them costs less.
fn bound_of(instance: &Instance, polygon: &Polygon) -> i64
    ensures { All (λ v. result ≤ℤ upper_of instance.now (grid v)) polygon.now }
{
    fine(instance, square_round(polygon))
}

/// The cheapest of the site that was found and the polygon's vertices, each of which is priced.
fn cheapest_of_vertices(
    instance: &Instance,
    polygon: &Polygon,
    found: Option<(Site, i64)>,
) -> Option<(Site, i64)>
    ensures { result ≡ fold (cheaper_vertex instance.now) found polygon.now }
{
    let mut cheapest = found;
    for i in 0..polygon.len() {
        let site = site_at(polygon.vertex(i).grid());
        cheapest = cheaper_site(instance, site, cheapest);
    }
    cheapest
}

/// The site, where it is permitted and costs less than what was found, and else what was found.
pub(crate) fn cheaper_site(
    instance: &Instance,
    site: Site,
    found: Option<(Site, i64)>,
) -> Option<(Site, i64)>
    ensures { result ≡ cheaper_site instance.now found site }
{
    if !instance.permits(site.pt()) {
        return found;
    }
    let cost = upper_cost(instance, site);
    match found {
        Some((_, least)) if least <= cost => found,
        _ => Some((site, cost)),
    }
}
