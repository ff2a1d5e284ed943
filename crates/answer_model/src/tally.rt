//! What is counted of the marks of a tree.

ghost use Rattle.std.specs.Prelude.{◌≡◌, [], ◌∷◌, ◌++◌, List};
ghost use Rattle.siting_definitions.specs.declared.Mark.{Mark as MarkOf};
ghost use Rattle.siting_definitions.specs.Marks as marks;
ghost use Rattle.siting_definitions.specs.Marks.{lesser as lesser_of, tally_of};
ghost use Rattle.siting_definitions.specs.Answer.{IsMark};
ghost use Rattle.answer_model.specs.Tally.{AreSmall, tally_sum};

use siting_definitions::Mark;
use std::marker::Model;

/// What is counted of a list of marks.
#[derive(Clone, Copy, Debug, PartialEq, Eq)]
pub struct Tally {
    /// How many marks there are, one for each square of the tree.
    pub nodes: u64,
    /// How many squares were split.
    pub splits: u64,
    /// How many squares were not split.
    pub leaves: u64,
    /// How many of the leaves were left open above level 0.
    pub open_leaves: u64,
    /// How many of the leaves are of level 0 and not settled.
    pub floor_leaves: u64,
    /// The least bound of the leaves that aren't excluded, in cost units, if there is one.
    pub least: Option<i64>,
}

impl Model for Tally {
    ghost use Rattle.siting_definitions.specs.Marks as marked;

    ghost Value = { marked.Tally };

    ghost view = { λ t. record {
      nodes = t.nodes;
      splits = t.splits;
      leaves = t.leaves;
      open_leaves = t.open_leaves;
      floor_leaves = t.floor_leaves;
      least = t.least;
    } };

    ghost inverse = { λ t. record {
      nodes = t.nodes;
      splits = t.splits;
      leaves = t.leaves;
      open_leaves = t.open_leaves;
      floor_leaves = t.floor_leaves;
      least = t.least;
    } };
}

/// Whether a mark is that of a split square.
pub fn is_split(mark: Mark) -> bool
    ensures value { result ≡ marks.is_split mark }
    ensures range { IsMark mark }
{
    match mark {
        Mark::Split(_) => true,
        Mark::Shut | Mark::Bounded(_) | Mark::Floor(_) | Mark::Left(_) => false,
    }
}

/// The lesser of two numbers that may be absent.
fn lesser(a: Option<i64>, b: Option<i64>) -> Option<i64>
    ensures { result ≡ lesser_of a b }
{
    match (a, b) {
        (None, _) => b,
        (Some(_), None) => a,
        (Some(a), Some(b)) => Some(a.min(b)),
    }
}

impl Tally {
    /// The tally of no marks.
    #[tactic(auto, unfolding(siting_definitions::specs::Marks::tally_of))]
    pub fn new() -> Tally
        ensures { result ≡ tally_of [] }
    {
        Tally {
            nodes: 0,
            splits: 0,
            leaves: 0,
            open_leaves: 0,
            floor_leaves: 0,
            least: None,
        }
    }

    /// The tally of one mark.
    #[tactic(auto, unfolding(siting_definitions::specs::Marks::tally_of))]
    fn of(mark: Mark) -> Tally
        ensures value { result ≡ tally_of (mark ∷ []) }
        ensures small { AreSmall result }
    {
        let leaf = Tally {
            nodes: 1,
            leaves: 1,
            ..Tally::new()
        };
        match mark {
            Mark::Split(_) => Tally {
                nodes: 1,
                splits: 1,
                ..Tally::new()
            },
            Mark::Shut => leaf,
            Mark::Bounded(bound) => Tally {
                least: Some(bound),
                ..leaf
            },
            Mark::Floor(bound) => Tally {
                floor_leaves: 1,
                least: Some(bound),
                ..leaf
            },
            Mark::Left(bound) => Tally {
                open_leaves: 1,
                least: Some(bound),
                ..leaf
            },
        }
    }

    /// Counts one more mark, after those that were counted. Each count so far is below 2^40.
    pub fn add(&mut self, mark: Mark)
        requires { AreSmall self.old }
        ensures { self.new ≡ tally_sum self.old (tally_of (mark ∷ [])) }
    {
        *self = self.joined(Tally::of(mark));
    }

    /// The tally of the marks of both, one list after the other. Each count is below 2^40.
    pub fn joined(self, other: Tally) -> Tally
        requires first { AreSmall self }
        requires second { AreSmall other }
        ensures { result ≡ tally_sum self other }
    {
        Tally {
            nodes: self.nodes + other.nodes,
            splits: self.splits + other.splits,
            leaves: self.leaves + other.leaves,
            open_leaves: self.open_leaves + other.open_leaves,
            floor_leaves: self.floor_leaves + other.floor_leaves,
            least: lesser(self.least, other.least),
        }
    }
}

/// The tally of two lists of marks, one after the other, is that of their tallies.
pub fn tallies_join()
    ensures { (xs ys : List MarkOf) → tally_of (xs ++ ys) ≡ tally_sum (tally_of xs) (tally_of ys) }
{}
