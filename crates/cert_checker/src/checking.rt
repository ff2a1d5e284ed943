//! Checking an answer.

ghost use Rattle.std.specs.Prelude.{◌≡◌, ◌≤◌, ◌∷◌, [], IfSome, IsErrOf, IsTrue, OnOk};
ghost use Rattle.std.specs.Result.{result_err};
ghost use Rattle.port_io.specs.Faults.{Rose};
ghost use Rattle.siting_definitions.specs.Sites.{opening_cost};
ghost use Rattle.siting_definitions.specs.Marks as marks;
ghost use Rattle.siting_definitions.specs.Marks.{tally_of};
ghost use Rattle.certificate.specs.Beginnings.{start_of};
ghost use Rattle.certificate.specs.ReaderView.{source_of, stream_of};
ghost use Rattle.answer_model.specs.Tally.{AreSmall, tally_sum};
ghost use Rattle.cert_checker.specs.Checking as checks;
ghost use Rattle.cert_checker.specs.Checking.{checking, node_fault};
ghost use Rattle.cert_checker.specs.Walking.{squares_after};
ghost use Rattle.cert_checker.specs.CheckReading.{CheckDone, CheckRead, MarksRead};
ghost use Rattle.cert_checker.specs.CheckReading.{UnlessCheckReadFault};
ghost use Rattle.cert_checker.specs.Steps.{ChecksTo};

use crate::end::last_fault;
use crate::faults::{CheckError, CheckFault, TREE_LONG, fault_at};
use crate::head::opening_or_fault;
use crate::mark::mark_fault;
use crate::walk::Walk;
use answer_model::{Head, Tally, is_split};
use certificate::{AnswerReader, Item};
use port_io::Source;
use site_model::Site;
use siting_definitions::{Mark, Word};
use std::alloc::Global;

/// More lines than the text of an answer may have, with 2^30 bytes.
const MORE_THAN_LINES: u64 = 1 << 31;

/// What a valid answer says.
#[derive(Clone, Copy, Debug, PartialEq, Eq)]
pub struct Accepted {
    /// How it ended.
    pub word: Word,
    /// Its site with the lower and the upper cost, in cost units, if there is one.
    pub best: Option<(Site, i64, i64)>,
    /// The lower bound over all permitted points, in cost units; none where no point is permitted.
    pub bound: Option<i64>,
    /// How many squares its tree has.
    pub nodes: u64,
}

/// Checks the text of an answer, which is read as a stream: `Ok` exactly where it is the text of a
/// valid answer, with nothing after it, and else its first fault.
///
/// A fault is found as soon as its line was read: no more is read than a piece of 4,096 bytes, and
/// what comes after it is no matter. `ReadFault` comes only where the source failed before a fault
/// came, and the source's count of faults then rose in this call; `TooLong` where 2^30 bytes came
/// without a fault, and more. Only the head takes memory.
pub fn check<S: Source>(alloc: Global, source: &mut S) -> Result<Accepted, CheckError>
    ensures answers { IfSome (S.left source.old)
        (λ bytes. ChecksTo (checking bytes) (S.left source.new) result) }
    ensures read_fault { IsErrOf result CheckError.ReadFault
        → Rose (S.faults source.old) (S.faults source.new) }
    ensures later { S.faults source.old ≤ S.faults source.new }

    // The bytes that were read settle the answer, and no more of them were read than that took.
    ensures read { CheckRead (S.left source.old) (S.left source.new) result }

    // Over a strict source no read failed where the answer isn't `ReadFault`.
    ensures heard { IsTrue S.is_strict
        → UnlessCheckReadFault result (S.faults source.new ≡ S.faults source.old) }
{
    check_text(alloc, source)
}

/// Reads the text line by line, and checks each line as it comes.
fn check_text<S: Source>(alloc: Global, source: &mut S) -> Result<Accepted, CheckError>
    ensures { CheckDone (start_of (S.left source.old) (S.faults source.old) S.is_strict)
        (start_of (S.left source.new) (S.faults source.new) S.is_strict) result }
{
    let mut reader = AnswerReader::new(source);
    let head = reader.read_head(alloc)?;
    let opening = opening_or_fault(&head)?;
    let tally = read_marks(&head, opening, &mut reader)?;
    reader.finish()?;
    Ok(accepted_of(&head, &tally))
}

/// What an answer with this head and this tally says.
pub fn accepted_of(head: &Head, tally: &Tally) -> Accepted
    ensures { result ≡ checks.accepted_of head.now tally.now }
{
    Accepted {
        word: head.word,
        best: head.best(),
        bound: head.bound,
        nodes: tally.nodes,
    }
}

/// Reads the lines after the head to the last one, and checks each.
fn read_marks<S: Source>(
    head: &Head,
    opening: Option<i64>,
    reader: &mut AnswerReader<'_, S>,
) -> Result<Tally, CheckError>
    requires { opening ≡ opening_cost head.now.instance }
    ensures same { source_of reader.new ≡ source_of reader.old }
    ensures reads { MarksRead head.now (stream_of S.left S.faults S.is_strict reader.old)
        (stream_of S.left S.faults S.is_strict reader.new) result }
{
    let mut walk = Walk::begin(head.instance.root());
    let mut tally = Tally::new();
    for _ in 0..MORE_THAN_LINES {
        match reader.next()? {
            Item::Node(mark) => read_mark(
                head,
                opening,
                &mut walk,
                &mut tally,
                mark,
                reader.line(),
            )?,
            Item::End => {
                read_end(head, &walk, &tally, reader.line())?;
                return Ok(tally);
            }
        }
    }
    // Not reached, since each line has a byte at least.
    Err(CheckError::TooLong)
}

/// Checks a mark, and goes on past its square.
fn read_mark(
    head: &Head,
    opening: Option<i64>,
    walk: &mut Walk,
    tally: &mut Tally,
    mark: Mark,
    line: u64,
) -> Result<(), CheckFault>
    requires opening { opening ≡ opening_cost head.now.instance }
    requires few { AreSmall tally.old }
    ensures fault { result_err result ≡ node_fault head.now walk.old mark line }
    ensures walk { OnOk result (walk.new ≡ squares_after walk.old (marks.is_split mark)) }
    ensures tally { OnOk result (tally.new ≡ tally_sum tally.old (tally_of (mark ∷ []))) }
{
    let Some(square) = walk.coming() else {
        return Err(fault_at(TREE_LONG, line));
    };
    if let Some(fault) = mark_fault(head, opening, square, mark, line) {
        return Err(fault);
    }
    walk.step(is_split(mark));
    tally.add(mark);
    Ok(())
}

/// Checks the last line.
fn read_end(head: &Head, walk: &Walk, tally: &Tally, line: u64) -> Result<(), CheckFault>
    ensures { result_err result ≡ checks.last_fault head.now walk.now tally.now line }
{
    match last_fault(head, walk, tally, line) {
        Some(fault) => Err(fault),
        None => Ok(()),
    }
}
