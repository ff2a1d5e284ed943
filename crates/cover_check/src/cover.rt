//! A cover.

ghost use Rattle.std.specs.Prelude.{◌≡◌, ◌≤◌};
ghost use Rattle.siting_definitions.specs.Instance.{IsInstance};

use crate::shapes::{Owned, Ring, Tile};
use site_model::Instance;
use std::marker::Model;

/// What a planner drew, triangles with owners, and the instance that is to hold it. A length of the
/// instance is 2^shift fine units; all the rest is in fine units.
#[derive(Drop)]
pub struct Cover {
    shift: u8,
    tile: Tile,
    region: Vec<Ring>,
    forbidden: Vec<Ring>,
    triangles: Vec<Owned>,
    instance: Instance,
}

impl Model for Cover {
    ghost use Rattle.std.specs.Prelude.{◌≤◌};
    ghost use Rattle.cover_check.specs.Cover as covers;

    ghost Value = { covers.Cover };

    ghost view = { λ a. record {
      shift = a.shift;
      tile = a.tile;
      region = a.region.items;
      forbidden = a.forbidden.items;
      triangles = a.triangles.items;
      instance = a.instance;
    } };

    ghost invariant = { λ a. a.shift ≤ 20 };
}

impl Cover {
    /// The cover of these parts.
    pub fn of(
        shift: u8,
        tile: Tile,
        region: Vec<Ring>,
        forbidden: Vec<Ring>,
        triangles: Vec<Owned>,
        instance: Instance,
    ) -> Cover
        requires { shift ≤ 20 }
        ensures { result ≡ record {
          shift = shift;
          tile = tile;
          region = region.items;
          forbidden = forbidden.items;
          triangles = triangles.items;
          instance = instance;
        } }
    {
        Cover {
            shift,
            tile,
            region,
            forbidden,
            triangles,
            instance,
        }
    }

    /// How many times a length is halved to make a fine unit.
    pub fn shift(&self) -> u8
        ensures value { result ≡ self.now.shift }
        ensures limit { result ≤ 20 }
    {
        self.shift
    }

    /// The tile, in fine units.
    pub fn tile(&self) -> Tile
        ensures { result ≡ self.now.tile }
    {
        self.tile
    }

    /// The rings of the region.
    pub fn region(&self) -> &[Ring]
        ensures { result.now ≡ self.now.region }
    {
        self.region.as_slice()
    }

    /// The rings of the forbidden areas.
    pub fn forbidden(&self) -> &[Ring]
        ensures { result.now ≡ self.now.forbidden }
    {
        self.forbidden.as_slice()
    }

    /// The triangles with their owners.
    pub fn triangles(&self) -> &[Owned]
        ensures { result.now ≡ self.now.triangles }
    {
        self.triangles.as_slice()
    }

    /// The instance.
    pub fn instance(&self) -> &Instance
        ensures value { result.now ≡ self.now.instance }
        ensures limits { IsInstance self.now.instance }
    {
        // Shows that the instance is within the limits.
        let _points = self.instance.points();
        &self.instance
    }
}
