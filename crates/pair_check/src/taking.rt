//! Taking lines into a batch, and checking them.

ghost use Rattle.std.specs.Prelude.{◌≡◌, ◌+◌, ◌<◌, ◌≤◌, ◌^◌, ◌++◌, [], ◌∷◌, None, Some};
ghost use Rattle.std.specs.Prelude.{◌&&◌, not, nat_eq, nat_lt};
ghost use Rattle.std.specs.Prelude.{slice_get, vec_len};
ghost use Rattle.certificate.specs.declared.reader.Item.TheVariants.{End as EndItem};
ghost use Rattle.certificate.specs.declared.reader.Item.TheVariants.{Node as NodeItem};
ghost use Rattle.siting_definitions.specs.Sites.{opening_cost};
ghost use Rattle.siting_definitions.specs.Marks.{tally_of};
ghost use Rattle.siting_definitions.specs.Marks as marks;
ghost use Rattle.answer_model.specs.Tally.{AreSmall, tally_sum};
ghost use Rattle.cert_checker.specs.Walking.{CanStep, squares_after};
ghost use Rattle.pair_check.specs.Batches.{Closes, Grows, TakesItem, batch_fault, batch_says};
ghost use Rattle.pair_check.specs.Batches.{batch_says_with};
ghost use Rattle.pair_check.specs.Batches.{tally_with};

use crate::batch::Batch;
use crate::gate::CheckGate;
use crate::parts::check_parts;
use answer_model::{Head, is_split};
use cert_checker::{CheckFault, TREE_LONG, Tally, last_fault};
use discard_log::Node;
use dyadic_square::Square;
use siting_definitions::Mark;
use std::thread::Threads;

/// How many lines a batch has at most.
pub(crate) const BATCH_LINES: usize = 65_536;

impl Batch {
    /// Checks the lines in so many parts, and counts their marks: their first fault, if there is
    /// one. Else the batch is empty then.
    pub(crate) fn settle<R: Threads + Sync, G: CheckGate + Sync>(
        &mut self,
        rt: &R,
        gate: &G,
        workers: u32,
        head: &Head,
        opening: Option<i64>,
    ) -> Option<CheckFault>
        requires opening { opening ≡ opening_cost head.now.instance }
        requires some { 0 < workers }
        requires few { vec_len self.old.nodes ≤ BATCH_LINES }
        requires lines { self.old.above + vec_len self.old.nodes < 2 ^ 64 }
        requires small { AreSmall (tally_with self.old) }
        ensures fault { result ≡ batch_fault head.now self.old }
        ensures tally { result ≡ None → self.new.tally ≡ tally_with self.old }
        ensures above { result ≡ None
            → self.new.above ≡ self.old.above + vec_len self.old.nodes }
        ensures empty { result ≡ None → self.new.nodes.items ≡ [] }
        ensures none { result ≡ None → vec_len self.new.nodes ≡ 0 }
        ensures walk { self.new.walk ≡ self.old.walk }
    {
        let lines = self.nodes.as_slice();
        match check_parts(rt, gate, head, opening, lines, self.above, 0, workers) {
            Err(fault) => Some(fault),
            Ok(tally) => {
                self.tally = self.tally.joined(tally);
                self.above += self.nodes.len() as u64;
                self.nodes.clear();
                None
            }
        }
    }

    /// Adds a line, which is that of the square to come: whether more may be added. A split of
    /// level 0 has no quarters, and no line comes after it, since it always has a fault.
    fn add(&mut self, square: Square, mark: Mark) -> bool
        requires square { slice_get self.old.walk 0 ≡ Some square }
        requires few { vec_len self.old.nodes < BATCH_LINES }
        ensures nodes { self.new.nodes.items
            ≡ self.old.nodes.items ++ record { square = square; mark = mark } ∷ [] }
        ensures len { vec_len self.new.nodes ≡ vec_len self.old.nodes + 1 }
        ensures above { self.new.above ≡ self.old.above }
        ensures tally { self.new.tally ≡ self.old.tally }
        ensures walk { CanStep self.old.walk (marks.is_split mark)
            → self.new.walk ≡ squares_after self.old.walk (marks.is_split mark) }
        ensures more { result
            ≡ (not (marks.is_split mark && nat_eq square.level 0)
            && nat_lt (vec_len self.new.nodes) BATCH_LINES) }
    {
        match self.nodes.push(Node { square, mark }) {
            Ok(()) => {}
            Err(_) => unreachable!(),
        }
        if is_split(mark) && square.level == 0 {
            return false;
        }
        self.walk.step(is_split(mark));
        self.nodes.len() < BATCH_LINES
    }

    /// Takes the mark of a line: a fault, if there is one in the batch and the batch is full or no
    /// square is to come.
    pub(crate) fn take<R: Threads + Sync, G: CheckGate + Sync>(
        &mut self,
        rt: &R,
        gate: &G,
        workers: u32,
        head: &Head,
        opening: Option<i64>,
        mark: Mark,
        line: u64,
    ) -> Option<CheckFault>
        requires opening { opening ≡ opening_cost head.now.instance }
        requires some { 0 < workers }
        requires few { vec_len self.old.nodes < BATCH_LINES }
        requires line { line ≡ self.old.above + vec_len self.old.nodes + 1 }
        requires small { AreSmall (tally_sum (tally_with self.old) (tally_of (mark ∷ []))) }
        ensures says { TakesItem line (batch_says_with head.now self.old (NodeItem mark))
            (batch_says head.now self.new) result }
        ensures few { result ≡ None → vec_len self.new.nodes < BATCH_LINES }
        ensures grows { result ≡ None → Grows self.old.nodes.items self.new.nodes.items }
        ensures line { result ≡ None → line ≡ self.new.above + vec_len self.new.nodes }
        ensures tally { result ≡ None
            → tally_with self.new ≡ tally_sum (tally_with self.old) (tally_of (mark ∷ [])) }
    {
        match self.walk.coming() {
            None => {
                match self.settle(rt, gate, workers, head, opening) {
                    Some(fault) => Some(fault),
                    None => Some(CheckFault {
                        number: TREE_LONG,
                        line,
                        differ: None,
                    }),
                }
            }
            Some(square) => {
                if self.add(square, mark) {
                    None
                } else {
                    self.settle(rt, gate, workers, head, opening)
                }
            }
        }
    }

    /// Checks the lines, and then the last line, which stands after them: the tally of all marks,
    /// or the first fault.
    pub(crate) fn close<R: Threads + Sync, G: CheckGate + Sync>(
        mut self,
        rt: &R,
        gate: &G,
        workers: u32,
        head: &Head,
        opening: Option<i64>,
        line: u64,
    ) -> Result<Tally, CheckFault>
        requires opening { opening ≡ opening_cost head.now.instance }
        requires some { 0 < workers }
        requires few { vec_len self.nodes ≤ BATCH_LINES }
        requires lines { self.above + vec_len self.nodes < 2 ^ 64 }
        requires small { AreSmall (tally_with self) }
        ensures { Closes line head.now (batch_says_with head.now self EndItem) result }
    {
        match self.settle(rt, gate, workers, head, opening) {
            Some(fault) => Err(fault),
            None => match last_fault(head, &self.walk, &self.tally, line) {
                Some(fault) => Err(fault),
                None => Ok(self.tally),
            },
        }
    }
}
