//! Checking an answer by several workers.

ghost use Rattle.std.specs.Prelude.{◌≡◌, ◌<◌, ◌≤◌, [], IfSome, IsErrOf, IsTrue, MatchOption};
ghost use Rattle.std.specs.Prelude.{vec_capacity};
ghost use Rattle.port_io.specs.Faults.{Rose};
ghost use Rattle.siting_definitions.specs.Sites.{opening_cost};
ghost use Rattle.certificate.specs.Beginnings.{start_of};
ghost use Rattle.certificate.specs.ReaderView.{source_of, stream_of};
ghost use Rattle.cert_checker.specs.declared.faults.CheckError.TheVariants.{Fault};
ghost use Rattle.cert_checker.specs.Checking.{checking, error_of};
ghost use Rattle.cert_checker.specs.Steps.{ChecksTo};
ghost use Rattle.pair_check.specs.BatchReading.{BatchesDone, BatchesRead, MarksChecked};
ghost use Rattle.pair_check.specs.BatchReading.{UnlessFault};

use crate::batch::Batch;
use crate::gate::CheckGate;
use crate::taking::BATCH_LINES;
use answer_model::Head;
use cert_checker::{Accepted, CheckError, CheckFault, Tally, accepted_of, opening_or_fault};
use certificate::{AnswerError, AnswerReader, Item};
use discard_log::Node;
use port_io::Source;
use std::alloc::Global;
use std::thread::Threads;

/// More lines than the text of an answer may have, with 2^30 bytes.
const MORE_THAN_LINES: u64 = 1 << 31;

/// Checks the text of an answer as `check` does, by so many workers, 1 to 64, with the same answer:
/// `Ok` exactly where it is the text of a valid answer, with nothing after it, and else its first
/// fault.
///
/// Lines are read in batches of up to 65,536, and the lines of a batch are checked in as many parts
/// as there are workers, each in a thread of its own where one can be made. So it reads ahead of
/// the first fault, by 65,536 lines at most, and over a text that stays open after that fault it
/// answers at the end of the batch. `ReadFault` comes only where the source failed and no line read
/// before has a fault, and the source's count of faults then rose in this call; `TooLong` where
/// 2^30 bytes came without a fault, and more. The room for one batch, some 3 MB, is taken before
/// anything is read; beside it only the head takes memory.
pub fn check_with<R: Threads + Sync, S: Source, G: CheckGate + Sync>(
    rt: &R,
    alloc: Global,
    source: &mut S,
    workers: u32,
    gate: &G,
) -> Result<Accepted, CheckError>
    requires least { 1 ≤ workers }
    requires most { workers ≤ 64 }
    ensures answers { IfSome (S.left source.old)
        (λ bytes. ChecksTo (checking bytes) (S.left source.new) result) }
    ensures read_fault { IsErrOf result CheckError.ReadFault
        → Rose (S.faults source.old) (S.faults source.new) }
    ensures later { S.faults source.old ≤ S.faults source.new }

    // The bytes that were read settle the answer.
    ensures read { BatchesRead (S.left source.old) (S.left source.new) result }

    // Over a strict source no read failed where the answer is neither a fault, after which a batch
    // reads on, nor `ReadFault`.
    ensures heard { IsTrue S.is_strict
        → UnlessFault result (S.faults source.new ≡ S.faults source.old) }
{
    match Vec::with_capacity(alloc, BATCH_LINES) {
        Ok(nodes) => check_text(rt, alloc, source, workers, gate, nodes),
        Err(_) => Err(CheckError::NoMemory),
    }
}

/// Reads the text line by line, and checks the lines of nodes batch by batch, for which there is
/// room in `nodes`.
fn check_text<R: Threads + Sync, S: Source, G: CheckGate + Sync>(
    rt: &R,
    alloc: Global,
    source: &mut S,
    workers: u32,
    gate: &G,
    nodes: Vec<Node>,
) -> Result<Accepted, CheckError>
    requires some { 0 < workers }
    requires room { BATCH_LINES ≤ vec_capacity nodes }
    requires empty { nodes.items ≡ [] }
    ensures { BatchesDone (start_of (S.left source.old) (S.faults source.old) S.is_strict)
        (start_of (S.left source.new) (S.faults source.new) S.is_strict) result }
{
    let mut reader = AnswerReader::new(source);
    let head = reader.read_head(alloc)?;
    let opening = opening_or_fault(&head)?;
    let tally = read_marks(rt, gate, workers, &head, opening, &mut reader, nodes)?;
    reader.finish()?;
    Ok(accepted_of(&head, &tally))
}

/// Reads the lines after the head to the last one, and checks them batch by batch.
fn read_marks<R: Threads + Sync, S: Source, G: CheckGate + Sync>(
    rt: &R,
    gate: &G,
    workers: u32,
    head: &Head,
    opening: Option<i64>,
    reader: &mut AnswerReader<'_, S>,
    nodes: Vec<Node>,
) -> Result<Tally, CheckError>
    requires opening { opening ≡ opening_cost head.now.instance }
    requires some { 0 < workers }
    requires room { BATCH_LINES ≤ vec_capacity nodes }
    requires empty { nodes.items ≡ [] }
    ensures same { source_of reader.new ≡ source_of reader.old }
    ensures reads { MarksChecked head.now (stream_of S.left S.faults S.is_strict reader.old)
        (stream_of S.left S.faults S.is_strict reader.new) result }
{
    let mut batch = Batch::begin(nodes, reader.line(), head.instance.root());
    for _ in 0..MORE_THAN_LINES {
        match reader.next() {
            Ok(Item::Node(mark)) => {
                let line = reader.line();
                if let Some(fault) = batch.take(rt, gate, workers, head, opening, mark, line) {
                    return Err(CheckError::Fault(fault));
                }
            }
            Ok(Item::End) => {
                return match batch.close(rt, gate, workers, head, opening, reader.line()) {
                    Ok(tally) => Ok(tally),
                    Err(fault) => Err(CheckError::Fault(fault)),
                };
            }
            Err(error) => {
                let fault = batch.settle(rt, gate, workers, head, opening);
                return Err(fault_or(fault, error));
            }
        }
    }
    // Not reached, since each line has a byte at least.
    Err(CheckError::TooLong)
}

/// The fault, if there is one, and else the error of the reader.
fn fault_or(fault: Option<CheckFault>, error: AnswerError) -> CheckError
    ensures { MatchOption fault (result ≡ error_of error) (λ first. result ≡ Fault first) }
{
    match fault {
        Some(fault) => CheckError::Fault(fault),
        None => CheckError::from(error),
    }
}
