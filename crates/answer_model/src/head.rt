//! The head of an answer.

ghost use Rattle.std.specs.Prelude.{◌≡◌, option_map};
ghost use Rattle.siting_definitions.specs.Answer.{upper_cost};
ghost use Rattle.answer_model.specs.Head.{parts_of};

use site_model::{Instance, Site};
use siting_definitions::Word;
use std::marker::Model;

/// An answer without its node lines.
#[derive(Drop)]
pub struct Head {
    /// The instance that it answers.
    pub instance: Instance,
    /// The gap asked, in cost units, 0 to 2^62.
    pub gap: i64,
    /// How many leases might be given, 0 to 1,000,000.
    pub budget: u32,
    /// How many squares might be open, 1 to 1,000,000.
    pub pool: u32,
    /// The site, if there is one.
    pub site: Option<Site>,
    /// The lower and the upper cost of the site, in cost units; none
    /// exactly where there is no site.
    pub cost: Option<(i64, i64)>,
    /// The lower bound over all permitted points, in cost units; none where no point is permitted.
    pub bound: Option<i64>,
    /// How the answer ended.
    pub word: Word,
    /// The open squares when the pool was full, and 0 where it wasn't, at most 1,000,000.
    pub open_count: u32,
    /// How many leases were given, at most 1,000,000.
    pub leases: u32,
}

impl Model for Head {
    ghost use Rattle.siting_definitions.specs.Answer as answers;

    ghost Value = { answers.Head };

    ghost use Rattle.answer_model.specs.HeadFields.{head_of, HeadFieldsFit};

    ghost view = { head_of };

    ghost invariant = { HeadFieldsFit };
}

impl Head {
    /// The site with its lower and its upper cost, in cost units, if there is one.
    pub fn best(&self) -> Option<(Site, i64, i64)>
        ensures { result ≡ option_map parts_of self.now.best }
    {
        match (self.site, self.cost) {
            (Some(site), Some((lower, upper))) => Some((site, lower, upper)),
            _ => None,
        }
    }

    /// The upper cost of the site, in cost units, if there is one.
    pub fn upper_cost(&self) -> Option<i64>
        ensures { result ≡ upper_cost self.now.best }
    {
        match self.best() {
            Some((_, _, upper)) => Some(upper),
            None => None,
        }
    }
}
