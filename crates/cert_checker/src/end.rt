//! The faults of the last line.

ghost use Rattle.std.specs.Prelude.{◌≡◌, ◌+◌, ◌*◌, nat_le, nat_lt, ◌&&◌};
ghost use Rattle.siting_definitions.specs.Answer as answers;
ghost use Rattle.cert_checker.specs.Faults as faults;
ghost use Rattle.cert_checker.specs.Faults.{end_fault_of};
ghost use Rattle.cert_checker.specs.Checking as checks;

use crate::faults::{
    CheckFault, LEAST_DIFFERS, TREE_SHORT, WRONG_COUNT, WRONG_WORD, fault_at, value_fault,
};
use crate::walk::Walk;
use answer_model::{Head, Tally, Word};

/// The first fault of the last line, with the squares to come and the tally of all marks: a square
/// is to come, or it is that of `end_fault`. None exactly where there is none.
pub fn last_fault(head: &Head, walk: &Walk, tally: &Tally, line: u64) -> Option<CheckFault>
    ensures { result ≡ checks.last_fault head.now walk.now tally.now line }
{
    if walk.coming().is_some() {
        return Some(fault_at(TREE_SHORT, line));
    }
    end_fault(head, tally, line)
}

/// The first fault at the last line, with the tally of all marks: the bound isn't the least of the
/// leaves, the word isn't the one that the marks call for, or the leases or the open squares don't
/// fit. None exactly where there is none.
#[tactic(auto, unfolding(crate::specs::Faults::end_fault_of))]
pub fn end_fault(head: &Head, tally: &Tally, line: u64) -> Option<CheckFault>
    ensures { result ≡ end_fault_of head.now tally.now line }
{
    if !is_same(head.bound, tally.least) {
        return Some(value_fault(LEAST_DIFFERS, line, head.bound, tally.least));
    }
    if !has_word(head.word, tally) {
        return Some(fault_at(WRONG_WORD, line));
    }
    if !counts_fit(head, tally) {
        return Some(fault_at(WRONG_COUNT, line));
    }
    None
}

/// Whether both numbers are absent, or both are there and equal.
fn is_same(a: Option<i64>, b: Option<i64>) -> bool
    ensures { result ≡ faults.same_optional a b }
{
    match (a, b) {
        (None, None) => true,
        (Some(a), Some(b)) => a == b,
        _ => false,
    }
}

/// Whether the word is the one that the marks call for.
fn has_word(word: Word, tally: &Tally) -> bool
    ensures { result ≡ answers.has_word word tally.now }
{
    if tally.least.is_none() {
        return word == Word::Empty;
    }
    if tally.open_leaves == 0 && tally.floor_leaves == 0 {
        return word == Word::Solved;
    }
    if tally.open_leaves == 0 {
        return word == Word::Floor;
    }
    word == Word::Budget || word == Word::PoolFull
}

/// Whether the leases and the open squares fit the tree.
fn counts_fit(head: &Head, tally: &Tally) -> bool
    ensures { result ≡ faults.counts_fit head.now tally.now }
{
    head.leases <= head.budget
        && is_at_most_twice(head.leases, tally.nodes)
        && tally.splits <= u64::from(head.leases)
        && open_fits(head, tally)
}

/// Whether `count` is at most twice `nodes`.
fn is_at_most_twice(count: u32, nodes: u64) -> bool
    ensures { result ≡ nat_le count (2 * nodes) }
{
    u128::from(count) <= 2 * u128::from(nodes)
}

/// Whether the open squares, and for `budget` the leases, fit the word.
fn open_fits(head: &Head, tally: &Tally) -> bool
    ensures { result ≡ faults.word_counts head.now tally.now head.now.word }
{
    match head.word {
        Word::Solved => head.open_count == 0,
        Word::PoolFull => is_full(head.open_count, head.pool, tally.leaves),
        Word::Budget => head.leases == head.budget && head.open_count == 0,
        Word::Floor => head.open_count == 0,
        Word::Empty => head.open_count == 0,
    }
}

/// Whether so many open squares fill the pool, so that there was no room for a split, and are no
/// more than the leaves.
fn is_full(open_count: u32, pool: u32, leaves: u64) -> bool
    ensures { result ≡ (nat_le 1 open_count
        && (nat_le open_count pool
        && (nat_lt pool (open_count + 3) && nat_le open_count leaves))) }
{
    1 <= open_count
        && open_count <= pool
        && u64::from(pool) < u64::from(open_count) + 3
        && u64::from(open_count) <= leaves
}
