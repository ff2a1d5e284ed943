//! Loading a valid answer.

ghost use Rattle.std.specs.Prelude.{◌≡◌, ◌-◌, ◌≤◌, ℕ, List, length, IfOk, IfErr, IfSome};
ghost use Rattle.std.specs.Prelude.{IsErrOf, IsTrue};
ghost use Rattle.port_io.specs.Bytes.{HasRest};
ghost use Rattle.port_io.specs.Faults.{Rose};
ghost use Rattle.siting_definitions.specs.AnswerText.{answer_text};
ghost use Rattle.siting_definitions.specs.declared.TheConstants.{LOAD_LIMIT};
ghost use Rattle.search_answer.specs.Ending.{answer_of};
ghost use Rattle.resume_job.specs.Loading.{AreOfValid, IsOfSome, LoadsTo, LoadReadsAtMost};
ghost use Rattle.resume_job.specs.Loading.{UnlessLoadReadFault, load_error_of};
ghost use Rattle.resume_job.specs.Steps.{IsTextWithMarks, RefusesText, RejectsText};

use crate::nodes::read_text;
use cert_checker::{CheckError, CheckFault, check};
use certificate::Head;
use discard_log::NodeList;
use port_io::{ReadAll, SliceSource, Source, read_up_to};
use siting_definitions::LOAD_LIMIT;
use std::alloc::Global;
use thiserror::Error;

/// Why no answer was loaded.
#[derive(Clone, Copy, Debug, Error)]
pub enum LoadError {
    /// More than 100,000,000 bytes came, which no valid answer has.
    #[error("the answer is longer than the limit")]
    TooLong,
    /// The source failed.
    #[error("reading failed")]
    ReadFault,
    /// The text isn't that of a valid answer; this is its first fault.
    #[error("the answer isn't valid")]
    Check(CheckFault),
    /// No memory was left.
    #[error("out of memory")]
    NoMemory,
}

impl From<ReadAll> for LoadError {
    ghost from_gives = { λ error e. e ≡ load_error_of error };

    fn from(error: ReadAll) -> LoadError {
        match error {
            ReadAll::TooLong => LoadError::TooLong,
            ReadAll::ReadFault => LoadError::ReadFault,
            ReadAll::NoMemory => LoadError::NoMemory,
        }
    }
}

/// The head and the nodes, in preorder, of the valid answer whose text the source gives to its end.
///
/// All is read before any fault of the text is told. `TooLong` comes exactly where more than
/// 100,000,000 bytes came, `Check` exactly where as many or fewer came, and they aren't the text of
/// a valid answer. `ReadFault` comes only where the source's count of faults rose in this call, and
/// `NoMemory` where no memory was left. Memory for the nodes is taken only when the answer is known
/// to be valid, for as many as it has.
pub fn load<S: Source>(alloc: Global, source: &mut S) -> Result<(Head, NodeList), LoadError>
    // Also where the source doesn't tell its bytes.
    ensures valid { IfOk result (λ loaded. AreOfValid loaded.0 loaded.1) }
    ensures fault { IfErr result IsOfSome }
    ensures loads { IfSome (S.left source.old)
        (λ bytes. LoadsTo bytes (S.left source.new) result) }
    ensures read_fault { IsErrOf result LoadError.ReadFault
        → Rose (S.faults source.old) (S.faults source.new) }
    ensures later { S.faults source.old ≤ S.faults source.new }

    // No more was read than the limit; where more came, at most a piece past it.
    ensures stop { IfSome (S.left source.old) (λ xs. IfSome (S.left source.new)
        (λ ys. LoadReadsAtMost (length xs - length ys) result)) }

    // Over a strict source no read failed where the answer isn't `ReadFault`.
    ensures heard { IsTrue S.is_strict
        → UnlessLoadReadFault result (S.faults source.new ≡ S.faults source.old) }

    // Whatever the answer, the source goes on telling.
    ensures rest { IfSome (S.left source.old) (λ xs. HasRest xs (S.left source.new)) }
{
    let bytes = read_up_to(alloc, source, LOAD_LIMIT)?;
    load_text(alloc, bytes.as_slice())
}

/// The head and the nodes of the valid answer whose text these bytes are.
fn load_text(alloc: Global, bytes: &[u8]) -> Result<(Head, NodeList), LoadError>
    requires { length bytes.now ≤ LOAD_LIMIT }
    ensures valid { IfOk result (λ loaded. AreOfValid loaded.0 loaded.1) }
    ensures text { IfOk result (λ loaded. bytes.now ≡ answer_text (answer_of loaded.0 loaded.1)) }
    ensures error { IfErr result (RefusesText bytes.now) }
{
    let count = check_text(alloc, bytes)?;
    read_text(alloc, bytes, count)
}

/// How many nodes the valid answer has whose text these bytes are.
fn check_text(alloc: Global, bytes: &[u8]) -> Result<u64, LoadError>
    requires { length bytes.now ≤ LOAD_LIMIT }
    ensures text { IfOk result (IsTextWithMarks bytes.now) }
    ensures error { IfErr result (RefusesText bytes.now) }
{
    let mut source = SliceSource::new(bytes);
    match check(alloc, &mut source) {
        Ok(accepted) => Ok(accepted.nodes),
        Err(error) => Err(error_of(error)),
    }
}

/// The error that is told as this one of a check of bytes in memory, no more than may be loaded.
fn error_of(error: CheckError) -> LoadError
    requires { (bytes : List ℕ) × RejectsText bytes error }
    ensures { (bytes : List ℕ) → RejectsText bytes error → RefusesText bytes result }
{
    match error {
        CheckError::Fault(fault) => LoadError::Check(fault),
        CheckError::NoMemory => LoadError::NoMemory,
        CheckError::ReadFault | CheckError::TooLong => unreachable!(),
    }
}
