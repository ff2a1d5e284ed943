//! The faults of an answer.

ghost use Rattle.std.specs.Prelude.{◌≡◌};
ghost use Rattle.cert_checker.specs.declared.faults.CheckError.TheVariants.{Fault};
ghost use Rattle.cert_checker.specs.Faults as faults;
ghost use Rattle.cert_checker.specs.Checking.{error_of};

use certificate::AnswerError;
use thiserror::Error;

/// A line isn't of its form, or is missing.
pub const FORM: u8 = 1;
/// The instance isn't in canonical form.
pub const INSTANCE: u8 = 2;
/// The site isn't permitted.
pub const SITE_OUTSIDE: u8 = 3;
/// A cost isn't the site's.
pub const COST_DIFFERS: u8 = 4;
/// The last line comes while squares are still to come.
pub const TREE_SHORT: u8 = 5;
/// A node line comes where no square is to come.
pub const TREE_LONG: u8 = 6;
/// A square marked as excluded isn't.
pub const NOT_SHUT: u8 = 7;
/// A bound isn't the square's.
pub const BOUND_DIFFERS: u8 = 8;
/// A mark isn't the right one.
pub const WRONG_MARK: u8 = 9;
/// A split wasn't called for.
pub const SPLIT_UNCALLED: u8 = 10;
/// The bound isn't the least of the leaves.
pub const LEAST_DIFFERS: u8 = 11;
/// The word isn't the one that the marks call for.
pub const WRONG_WORD: u8 = 12;
/// Leases or open squares don't fit the tree.
pub const WRONG_COUNT: u8 = 13;
/// The opening costs less than the site, or there is no site.
pub const SITE_WORSE: u8 = 14;

/// Two values of which the second was wanted, in cost units. None is the word `none`.
#[derive(Clone, Copy, Debug, PartialEq, Eq)]
pub struct Differ {
    /// The value of the answer.
    pub has: Option<i64>,
    /// The value that it should have.
    pub wants: Option<i64>,
}

/// A fault of the text of an answer.
#[derive(Clone, Copy, Debug, PartialEq, Eq)]
pub struct CheckFault {
    /// Which fault: one of the constants of this crate, 1 to 14.
    pub number: u8,
    /// The number of the line, from 1.
    pub line: u64,
    /// The two values, for a fault that has them.
    pub differ: Option<Differ>,
}

/// Why an answer wasn't accepted.
#[derive(Debug, PartialEq, Eq, Drop, Error)]
pub enum CheckError {
    /// The first fault of the text.
    #[error("the answer isn't valid")]
    Fault(CheckFault),
    /// The source failed before a fault came.
    #[error("reading failed")]
    ReadFault,
    /// More bytes came than an answer may have, which is 2^30, and no fault before.
    #[error("the answer is longer than the limit")]
    TooLong,
    /// No memory was left.
    #[error("out of memory")]
    NoMemory,
}

impl From<AnswerError> for CheckError {
    ghost from_gives = { λ error e. e ≡ error_of error };

    fn from(error: AnswerError) -> CheckError {
        match error {
            AnswerError::Form { line } => CheckError::Fault(fault_at(FORM, line)),
            AnswerError::Instance => CheckError::Fault(fault_at(INSTANCE, 2)),
            AnswerError::TooLong => CheckError::TooLong,
            AnswerError::ReadFault => CheckError::ReadFault,
            AnswerError::NoMemory => CheckError::NoMemory,
        }
    }
}

impl From<CheckFault> for CheckError {
    ghost from_gives = { λ fault e. e ≡ Fault fault };

    fn from(fault: CheckFault) -> CheckError {
        CheckError::Fault(fault)
    }
}

/// A fault without values.
pub(crate) fn fault_at(number: u8, line: u64) -> CheckFault
    ensures { result ≡ faults.fault_at number line }
{
    CheckFault {
        number,
        line,
        differ: None,
    }
}

/// A fault of a value that another was wanted for.
pub(crate) fn value_fault(number: u8, line: u64, has: Option<i64>, wants: Option<i64>) -> CheckFault
    ensures { result ≡ faults.value_fault number line has wants }
{
    CheckFault {
        number,
        line,
        differ: Some(Differ { has, wants }),
    }
}
