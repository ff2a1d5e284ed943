//! The finished marks of leaves.

ghost use Rattle.std.specs.Prelude.{◌≡◌, false};
ghost use Rattle.siting_definitions.specs.Answer.{IsMark};
ghost use Rattle.siting_definitions.specs.Marks as marks;
ghost use Rattle.answer_model.specs.Leaf as leaves;

use dyadic_square::Square;
use exclusion::excluded;
use objectives::{fine, reaches};
use site_model::Instance;
use siting_definitions::Mark;

/// The finished mark of a leaf, for the gap and the least upper cost, if there is one, both in cost
/// units: excluded, or settled by its fine bound, or of level 0, or left open with its fine bound.
#[tactic(auto, unfolding(siting_definitions::specs::Marks::leaf_mark))]
pub fn leaf_mark(instance: &Instance, gap: i64, least: Option<i64>, square: Square) -> Mark
    ensures value { result ≡ marks.leaf_mark instance.now gap least square }
    ensures leaf { marks.is_split result ≡ false }
    ensures range { IsMark result }
{
    if excluded(instance, square) {
        Mark::Shut
    } else {
        mark_by_bound(gap, least, square.level, fine(instance, square))
    }
}

/// The finished mark of a leaf that isn't excluded, by its level and its fine bound, for the gap
/// and the least upper cost, if there is one, all three in cost units.
pub fn mark_by_bound(gap: i64, least: Option<i64>, level: u8, bound: i64) -> Mark
    ensures value { result ≡ leaves.mark_by_bound gap least level bound }
    ensures leaf { marks.is_split result ≡ false }
    ensures range { IsMark result }
{
    if reaches(least, bound, gap) {
        return Mark::Bounded(bound);
    }
    if level == 0 {
        Mark::Floor(bound)
    } else {
        Mark::Left(bound)
    }
}
