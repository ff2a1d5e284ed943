//! Reading an instance text.

ghost use Rattle.std.specs.Prelude.{◌≡◌};
ghost use Rattle.instance_text.specs.Reading.{reading};
ghost use Rattle.instance_text.specs.Outcome.{Gives, error_at};

use crate::faults::{InstanceError, InstanceFault, LineError};
use crate::reading::Reading;
use site_model::Instance;
use std::alloc::Global;
use text_lines::next_line;

/// Reads the instance that an instance text says.
///
/// Where the bytes are no instance text it answers the first fault, by its line and, within a line,
/// by the order of the faults; and `NoMemory` where memory ran out.
#[tactic(auto, unfolding(crate::specs::Reading::reading))]
pub fn read_instance(alloc: Global, bytes: &[u8]) -> Result<Instance, InstanceError>
    ensures { Gives result (reading bytes.now) }
{
    let mut found = Reading::new(alloc);
    let mut line: u64 = 1;
    let mut rest = bytes;
    while !rest.is_empty() {
        let (text, after) = next_line(rest);
        match found.take_line(alloc, text) {
            Ok(()) => {}
            Err(error) => return Err(at_line(line, error)),
        }
        line += 1;
        rest = after;
    }
    match found.finish() {
        Ok(instance) => Ok(instance),
        Err(number) => Err(InstanceError::Fault(InstanceFault { number, line })),
    }
}

/// The error of the text whose line of this number has this error.
fn at_line(line: u64, error: LineError) -> InstanceError
    ensures { result ≡ error_at line error }
{
    match error {
        LineError::Fault(number) => InstanceError::Fault(InstanceFault { number, line }),
        LineError::NoMemory => InstanceError::NoMemory,
    }
}
