//! The definitions of siting: instances, costs, bounds, squares, trees, answers and their texts.
//!
//! The definitions are in `specs/`. What is declared here are the limits, with the law that says
//! their numbers, and the enums that the definitions name; the crate that each enum belongs to
//! passes it on.
#![tactic(auto)]

mod limits;

pub use limits::limits_have_their_numbers;

/// How many grid units make a length, and how many cost units a weight of 1 at
/// a distance of one length.
pub const UNIT: u64 = 65536;

/// The greatest size of a coordinate, in lengths.
pub const COORDINATE_LIMIT: u64 = 1000000;

/// The greatest sum of the sizes of the weights, and so the greatest size of a weight.
pub const WEIGHT_LIMIT: u64 = 16000000;

/// The greatest cutoff, in lengths.
pub const CUTOFF_LIMIT: u64 = 4000000;

/// How many demand points an instance has at most.
pub const POINT_LIMIT: usize = 4096;

/// How many permitted polygons an instance has at most, and how many forbidden ones.
pub const POLYGON_LIMIT: usize = 64;

/// How many vertices a polygon has at most.
pub const VERTEX_LIMIT: usize = 64;

/// The greatest gap, in cost units: 2^62.
pub const GAP_LIMIT: u64 = 4611686018427387904;

/// The greatest budget: how many squares may be taken up.
pub const BUDGET_LIMIT: u32 = 1000000;

/// The greatest pool: how many squares may be open at once.
pub const POOL_LIMIT: u32 = 1000000;

/// How many nodes a tree has at most: four more with each square taken up.
pub const NODE_LIMIT: u32 = 4000001;

/// How many millionths of a cost the gap may be at most.
pub const PPM_LIMIT: u32 = 1000000;

/// How many workers a team has at most.
pub const WORKER_LIMIT: u32 = 64;

/// The greatest seed of a made instance: 2^31 - 1.
pub const SEED_LIMIT: u32 = 2147483647;

/// How much more than its site a point of a near set may cost at most, in cost units: 2^60.
pub const SLACK_LIMIT: u64 = 1152921504606846976;

/// How many levels below the root the squares of a near set lie at most.
pub const DEPTH_LIMIT: u32 = 16;

/// How many squares of a near set are written at most.
pub const SQUARE_LIMIT: u32 = 1000000;

/// How many bytes of an instance text are read at most.
pub const INSTANCE_LIMIT: usize = 1048576;

/// How many bytes of an answer are checked at most: 2^30.
pub const CHECK_LIMIT: u32 = 1073741824;

/// How many bytes of an answer are loaded at most. No valid answer has as many.
pub const LOAD_LIMIT: usize = 100000000;

/// How the terms "weight times distance" make a cost.
#[derive(Clone, Copy, Debug, PartialEq, Eq)]
pub enum Kind {
    /// Their sum.
    Sum,
    /// The greatest of them.
    Max,
}

/// How the gap asked is found.
#[derive(Clone, Copy, Debug, PartialEq, Eq)]
pub enum GapRule {
    /// A number of cost units, 0 to 2^62.
    Fixed(i64),
    /// Millionths of the size of the opening's upper cost, 0 to 1,000,000.
    Ppm(u32),
}

/// What became of a square of the tree. Each number is in cost units.
#[derive(Clone, Copy, Debug, PartialEq, Eq)]
pub enum Mark {
    /// Split into its quarters, with the number of the incumbent that was
    /// seen then, if there was one.
    Split(Option<i64>),
    /// Excluded: no point of it is permitted.
    Shut,
    /// Settled by the gap, with its bound.
    Bounded(i64),
    /// A square of level 0 that isn't settled, with its bound.
    Floor(i64),
    /// A square above level 0 that was left open, with its bound.
    Left(i64),
}

/// How an answer ended.
#[derive(Clone, Copy, Debug, PartialEq, Eq)]
pub enum Word {
    /// The cost is within the gap of the bound.
    Solved,
    /// The room for open squares was used up.
    PoolFull,
    /// The leases were used up.
    Budget,
    /// Squares of level 0 are left that aren't settled.
    Floor,
    /// No point is permitted.
    Empty,
}
