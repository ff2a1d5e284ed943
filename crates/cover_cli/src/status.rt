//! How the program ends.

ghost use Rattle.std.specs.Prelude.{◌≡◌};
ghost use Rattle.cover_cli.specs.Status.{code_of};

use cover_check::CoverFault;
use cover_text::TextFault;
use instance_text::InstanceFault;

/// What the bytes that were read come to.
#[derive(Clone, Copy, Debug, PartialEq, Eq)]
pub enum Verdict {
    /// They are the text of a cover, and its instance permits what the planner drew.
    Covered,
    /// The lines of the cover have this first fault.
    BadCover(TextFault),
    /// The lines after them have this first fault, as an instance text.
    BadInstance(InstanceFault),
    /// They are the text of a cover, and this is the first of its tests that fails.
    Uncovered(CoverFault),
    /// They are more than the limit.
    TooLong,
}

/// How a run of the program ended.
#[derive(Clone, Copy, Debug, PartialEq, Eq)]
pub enum Status {
    /// This was written.
    Said(Verdict),
    /// A read failed.
    ReadFault,
    /// A write failed.
    WriteFault,
    /// No memory was found.
    NoMemory,
}

impl Status {
    /// The code with which the program ends.
    pub fn code(&self) -> u8
        ensures { result ≡ code_of self.now }
    {
        match self {
            Status::Said(Verdict::Covered) => 0,
            Status::Said(Verdict::BadCover(_)) => 3,
            Status::Said(Verdict::BadInstance(_)) => 3,
            Status::Said(Verdict::Uncovered(_)) => 5,
            Status::Said(Verdict::TooLong) => 9,
            Status::ReadFault => 6,
            Status::WriteFault => 7,
            Status::NoMemory => 8,
        }
    }
}
