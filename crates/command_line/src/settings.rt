//! The settings of the commands: each with its name, its range, and what it is where no word says
//! it.

ghost use Rattle.std.specs.Prelude.{◌≡◌, map, option_map};
ghost use Rattle.command_line.specs.Settings.{rule_of, rules_of};

use siting_definitions::{
    BUDGET_LIMIT, DEPTH_LIMIT, GAP_LIMIT, POINT_LIMIT, POOL_LIMIT, PPM_LIMIT, SEED_LIMIT,
    SLACK_LIMIT, SQUARE_LIMIT, WORKER_LIMIT,
};
use text_lines::says;

/// What a setting is where no word says it.
#[derive(Clone, Copy, Debug, PartialEq, Eq)]
pub enum Otherwise {
    /// This number.
    Default(u64),
    /// Nothing.
    Unsaid,
    /// It has to be said.
    Required,
}

/// A name that a word of a command gives a number to.
#[derive(Clone, Copy, Debug, PartialEq, Eq)]
pub struct Setting {
    /// The name with its `=`.
    pub name: &'static [u8],
    /// The least number.
    pub least: u64,
    /// The greatest number.
    pub greatest: u64,
    /// What it is where no word says it.
    pub otherwise: Otherwise,
}

/// The gap, in cost units.
pub(crate) const GAP: Setting = Setting {
    name: b"gap=",
    least: 0,
    greatest: GAP_LIMIT,
    otherwise: Otherwise::Unsaid,
};

/// The gap in millionths of the opening's upper cost.
pub(crate) const PPM: Setting = Setting {
    name: b"ppm=",
    least: 0,
    greatest: PPM_LIMIT as u64,
    otherwise: Otherwise::Unsaid,
};

/// How many leases may be given.
pub(crate) const BUDGET: Setting = Setting {
    name: b"budget=",
    least: 0,
    greatest: BUDGET_LIMIT as u64,
    otherwise: Otherwise::Default(100_000),
};

/// How many leases may be given in all, where a run goes on.
pub(crate) const WHOLE_BUDGET: Setting = Setting {
    otherwise: Otherwise::Required,
    ..BUDGET
};

/// How many squares may be open at a time.
pub(crate) const POOL: Setting = Setting {
    name: b"pool=",
    least: 1,
    greatest: POOL_LIMIT as u64,
    otherwise: Otherwise::Default(100_000),
};

/// How many squares may be open at a time, where a run goes on.
pub(crate) const NEW_POOL: Setting = Setting {
    otherwise: Otherwise::Unsaid,
    ..POOL
};

/// How many workers there are.
pub(crate) const WORKERS: Setting = Setting {
    name: b"workers=",
    least: 1,
    greatest: WORKER_LIMIT as u64,
    otherwise: Otherwise::Default(1),
};

/// How much more than the site a point of a near set may cost, in cost units.
pub(crate) const SLACK: Setting = Setting {
    name: b"slack=",
    least: 0,
    greatest: SLACK_LIMIT,
    otherwise: Otherwise::Default(0),
};

/// How many levels below the root the squares of a near set lie.
pub(crate) const DEPTH: Setting = Setting {
    name: b"depth=",
    least: 0,
    greatest: DEPTH_LIMIT as u64,
    otherwise: Otherwise::Default(8),
};

/// How many squares of a near set may be written.
pub(crate) const LIMIT: Setting = Setting {
    name: b"limit=",
    least: 1,
    greatest: SQUARE_LIMIT as u64,
    otherwise: Otherwise::Default(100_000),
};

/// Where the generator of a made instance begins.
pub(crate) const SEED: Setting = Setting {
    name: b"seed=",
    least: 0,
    greatest: SEED_LIMIT as u64,
    otherwise: Otherwise::Required,
};

/// How many points a made instance has.
pub(crate) const POINTS: Setting = Setting {
    name: b"points=",
    least: 1,
    greatest: POINT_LIMIT as u64,
    otherwise: Otherwise::Required,
};

static SOLVE: [Setting; 5] = [GAP, PPM, BUDGET, POOL, WORKERS];

static CHECK: [Setting; 1] = [WORKERS];

static RESUME: [Setting; 3] = [WHOLE_BUDGET, NEW_POOL, WORKERS];

static POLISH: [Setting; 0] = [];

static NEAR: [Setting; 3] = [SLACK, DEPTH, LIMIT];

static MAKE: [Setting; 2] = [SEED, POINTS];

static TRIAL: [Setting; 6] = [SEED, POINTS, GAP, PPM, BUDGET, POOL];

/// The settings of the command with this name, if there is one.
pub fn settings_of(command: &[u8]) -> Option<&'static [Setting]>
    ensures { option_map (λ settings. map rule_of settings.now) result ≡ rules_of command.now }
{
    if says(command, b"solve") {
        Some(&SOLVE)
    } else if says(command, b"check") {
        Some(&CHECK)
    } else if says(command, b"resume") {
        Some(&RESUME)
    } else if says(command, b"polish") {
        Some(&POLISH)
    } else if says(command, b"near") {
        Some(&NEAR)
    } else if says(command, b"make") {
        Some(&MAKE)
    } else if says(command, b"trial") {
        Some(&TRIAL)
    } else {
        None
    }
}
