//! How the program ends.

ghost use Rattle.std.specs.Prelude.{◌≡◌};
ghost use Rattle.bsss_cli.specs.Status.{code_of, status_of, reported};

use cert_checker::CheckFault;
use port_io::WriteFault;
use siting_definitions::Word;

/// How a run of the program ended.
#[derive(Clone, Copy, Debug, PartialEq, Eq)]
pub enum Status {
    /// The answer is solved: its upper cost is within the gap of its bound.
    Solved,
    /// The text is that of a valid answer.
    Accepted,
    /// The instance was made.
    Made,
    /// A better bound of an answer was written.
    Polished,
    /// The near set of an answer was written.
    Near,
    /// The words are no lawful command.
    Usage,
    /// The bytes are no instance text.
    BadInstance {
        /// Which fault, 1 to 17.
        number: u8,
        /// The line of the fault, from 1.
        line: u64,
    },
    /// The text isn't that of a valid answer, and this is its first fault.
    Rejected(CheckFault),
    /// A read failed.
    ReadFault,
    /// A write failed.
    WriteFault,
    /// No memory was found.
    NoMemory,
    /// The input is longer than the limit.
    TooLong,
    /// The answer was stopped: the room for open squares was used up.
    PoolFull,
    /// The answer was stopped: the leases were used up.
    Budget,
    /// Squares of level 0 are left that aren't settled.
    Floor,
    /// No point is permitted.
    Empty,
    /// The budget is below the leases that an answer's splits took.
    SmallBudget {
        /// The budget.
        has: u32,
        /// How many squares are split.
        wants: u32,
    },
    /// The pool has no room for the squares that an answer leaves open.
    SmallPool {
        /// How many squares may be open.
        has: u32,
        /// How many squares are left open.
        wants: u32,
    },
    /// The answer has no site.
    NoSite,
    /// The near set has more squares than the limit.
    TooMany {
        /// The limit.
        limit: u32,
    },
}

impl Status {
    /// The code with which the program ends.
    pub fn code(&self) -> u8
        ensures { result ≡ code_of self.now }
    {
        match self {
            Status::Solved | Status::Accepted | Status::Made | Status::Polished | Status::Near => 0,
            Status::Usage => 2,
            Status::BadInstance { .. } => 3,
            Status::Rejected(_) => 5,
            Status::ReadFault => 6,
            Status::WriteFault => 7,
            Status::NoMemory => 8,
            Status::TooLong => 9,
            Status::PoolFull => 10,
            Status::Budget => 11,
            Status::Floor => 12,
            Status::Empty => 13,
            Status::SmallBudget { .. } => 14,
            Status::SmallPool { .. } => 15,
            Status::NoSite => 16,
            Status::TooMany { .. } => 17,
        }
    }
}

/// The status of an answer that ends with this word.
pub(crate) fn status_of(word: Word) -> Status
    ensures { result ≡ status_of word }
{
    match word {
        Word::Solved => Status::Solved,
        Word::PoolFull => Status::PoolFull,
        Word::Budget => Status::Budget,
        Word::Floor => Status::Floor,
        Word::Empty => Status::Empty,
    }
}

/// The status, or `WriteFault` where what was to be written with it was not.
pub(crate) fn report(written: Result<(), WriteFault>, status: Status) -> Status
    ensures { result ≡ reported written status }
{
    match written {
        Ok(()) => status,
        Err(WriteFault) => Status::WriteFault,
    }
}
