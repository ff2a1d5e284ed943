//! An instance, and which points it permits.

ghost use Rattle.std.specs.Prelude.{◌≡◌, ◌≤◌, pos, length, All};
ghost use Rattle.std.specs.List.{list_any};
ghost use Rattle.siting_definitions.specs.Point.{point_of};
ghost use Rattle.siting_definitions.specs.Polygon.{covers, covers_inside};
ghost use Rattle.siting_definitions.specs.Instance.{IsInstance, IsPolygon, weight};
ghost use Rattle.siting_definitions.specs.Permitted.{permits};
ghost use Rattle.siting_definitions.specs.Sites.{root_of};
ghost use Rattle.siting_definitions.specs.InstanceText.{has_cutoff};
ghost use Rattle.siting_definitions.specs.declared.TheConstants.{POINT_LIMIT, WEIGHT_LIMIT};
ghost use Rattle.siting_definitions.specs.declared.TheConstants.{POLYGON_LIMIT};

use crate::demand::{DemandPt, weight_of};
use crate::root::root_over;
use convex_region::Polygon;
use dyadic_square::Square;
use exact_geometry::Pt;
use siting_definitions::Kind;
use std::alloc::AllocError;
use std::marker::Model;

/// An instance: 1 to 4,096 demand points with weights of at most 16,000,000 together in size, 1 to
/// 64 permitted polygons and up to 64 forbidden ones.
#[derive(Drop)]
pub struct Instance {
    kind: Kind,
    points: Vec<DemandPt>,
    permitted: Vec<Polygon>,
    forbidden: Vec<Polygon>,
    weight: i64,
    root: Square,
}

impl Model for Instance {
    ghost use Rattle.siting_definitions.specs.Instance as instances;
    ghost use Rattle.site_model.specs.Instance.{instance_of, InstanceFits};

    ghost Value = { instances.Instance };

    ghost view = { instance_of };

    ghost invariant = { λ a. InstanceFits (instance_of a) a.weight a.root };
}

/// A copy is the same instance. It takes memory, so it may fail.
impl Clone for Instance {
    ghost is_clone = { λ instance copy. copy ≡ instance };

    fn clone(&self) -> Result<Instance, AllocError> {
        let points = self.points.clone()?;
        let permitted = self.permitted.clone()?;
        let forbidden = self.forbidden.clone()?;
        Ok(Instance {
            kind: self.kind,
            points,
            permitted,
            forbidden,
            weight: self.weight,
            root: self.root,
        })
    }
}

impl Instance {
    /// The instance of these demand points and polygons.
    pub fn build(
        kind: Kind,
        points: Vec<DemandPt>,
        permitted: Vec<Polygon>,
        forbidden: Vec<Polygon>,
    ) -> Instance
        requires few_points { 1 ≤ length points.items }
        requires many_points { length points.items ≤ POINT_LIMIT }
        requires weight { weight points.items ≤ WEIGHT_LIMIT }
        requires few_permitted { 1 ≤ length permitted.items }
        requires many_permitted { length permitted.items ≤ POLYGON_LIMIT }
        requires many_forbidden { length forbidden.items ≤ POLYGON_LIMIT }

        ensures { result ≡ record {
          kind = kind;
          points = points.items;
          permitted = permitted.items;
          forbidden = forbidden.items;
        } }
    {
        let weight = weight_of(points.as_slice());
        let root = root_over(permitted.as_slice());
        are_polygons(forbidden.as_slice());
        Instance {
            kind,
            points,
            permitted,
            forbidden,
            weight,
            root,
        }
    }

    /// How the terms make a cost.
    pub fn kind(&self) -> Kind
        ensures { result ≡ self.now.kind }
    {
        self.kind
    }

    /// The demand points, in order.
    pub fn points(&self) -> &[DemandPt]
        ensures value { result.now ≡ self.now.points }
        ensures limits { IsInstance self.now }
    {
        self.points.as_slice()
    }

    /// The permitted polygons, in order.
    pub fn permitted(&self) -> &[Polygon]
        ensures { result.now ≡ self.now.permitted }
    {
        self.permitted.as_slice()
    }

    /// The forbidden polygons, in order.
    pub fn forbidden(&self) -> &[Polygon]
        ensures { result.now ≡ self.now.forbidden }
    {
        self.forbidden.as_slice()
    }

    /// Whether some demand point has a cutoff.
    pub fn has_cutoff(&self) -> bool
        ensures { result ≡ has_cutoff self.now }
    {
        self.points.iter().any(|point| point.cutoff.is_some())
    }

    /// The sum of the sizes of the weights, 1 to 16,000,000.
    pub fn weight(&self) -> i64
        ensures { result ≡ pos (weight self.now.points) }
    {
        self.weight
    }

    /// Whether a site may stand at `p`: some permitted polygon holds it, and no forbidden polygon
    /// holds it in its interior.
    pub fn permits(&self, p: Pt) -> bool
        ensures { result ≡ permits self.now (point_of p) }
    {
        some_covers(self.permitted.as_slice(), p)
            && !some_covers_inside(self.forbidden.as_slice(), p)
    }

    /// The starting square: its corner is the least x and the least y of the permitted polygons,
    /// and its side is the least power of two of whole lengths above their extent in x and in y.
    pub fn root(&self) -> Square
        ensures { result ≡ root_of self.now }
    {
        self.root
    }
}

/// Reads each polygon: all are within the limits.
fn are_polygons(polygons: &[Polygon])
    ensures { All IsPolygon polygons.now }
{
    for polygon in polygons {
        let _count = polygon.len();
    }
}

/// Whether some polygon holds `p`.
fn some_covers(polygons: &[Polygon], p: Pt) -> bool
    ensures { result ≡ list_any (λ vs. covers vs (point_of p)) polygons.now }
{
    polygons.iter().any(|polygon| polygon.covers(p))
}

/// Whether some polygon holds `p` in its interior.
fn some_covers_inside(polygons: &[Polygon], p: Pt) -> bool
    ensures { result ≡ list_any (λ vs. covers_inside vs (point_of p)) polygons.now }
{
    polygons.iter().any(|polygon| polygon.covers_inside(p))
}
