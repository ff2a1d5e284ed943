//! Reading an input to its end.

ghost use Rattle.std.specs.Prelude.{◌≡◌, ◌-◌, ◌<◌, ◌≤◌, [], Some, length, vec_len, IfOk, OnOk};
ghost use Rattle.std.specs.Prelude.{IfSome, IsErr, IsErrOf, IsTrue};
ghost use Rattle.port_io.specs.Faults.{Rose};
ghost use Rattle.port_io.specs.Bytes.{HasRest};
ghost use Rattle.port_io.specs.Whole.{ReadsAtMost, UnlessReadFault};

use crate::buffer::BUFFER_SIZE;
use crate::ports::Source;
use std::alloc::Global;
use thiserror::Error;

/// Why an input was not read to its end.
#[derive(Debug, Drop, Error)]
pub enum ReadAll {
    /// More bytes came than the limit allows.
    #[error("the input is longer than the limit")]
    TooLong,
    /// The source failed.
    #[error("reading failed")]
    ReadFault,
    /// Memory ran out for the bytes.
    #[error("out of memory")]
    NoMemory,
}

/// All bytes of the source to its end, of which there may be `limit` at most.
///
/// `TooLong` comes where more than `limit` bytes came, `ReadFault` only where the source's count
/// of faults rose in this call, and `NoMemory` where memory ran out: whichever happened first. At
/// most 4,096 bytes are read past the limit. What was read stays read: after an error the source
/// has a rest of its bytes left.
pub fn read_up_to<S: Source>(
    alloc: Global,
    source: &mut S,
    limit: usize,
) -> Result<Vec<u8>, ReadAll>
    // All bytes, and no more are left.
    ensures bytes { IfOk result (λ v. IfSome (S.left source.old) (λ xs. v.items ≡ xs)) }
    ensures end { OnOk result (IfSome (S.left source.old)
        (λ _. S.left source.new ≡ Some [])) }
    ensures short { IfOk result (λ v. vec_len v ≤ limit) }

    // A longer input never gives `Ok`, and `TooLong` comes for no other.
    ensures long { IfSome (S.left source.old) (λ xs. limit < length xs → IsErr result) }
    ensures too_long { IsErrOf result ReadAll.TooLong
        → IfSome (S.left source.old) (λ xs. limit < length xs) }
    ensures read_fault { IsErrOf result ReadAll.ReadFault
        → Rose (S.faults source.old) (S.faults source.new) }

    // Over a strict source no read failed where the answer isn't `ReadFault`.
    ensures heard { IsTrue S.is_strict
        → UnlessReadFault result (S.faults source.new ≡ S.faults source.old) }

    // It stops at the first of these.
    ensures stop { IfSome (S.left source.old) (λ xs. IfSome (S.left source.new)
        (λ ys. ReadsAtMost limit (length xs - length ys) result)) }

    // Whatever the answer, the source goes on telling, and its count has not fallen.
    ensures rest { IfSome (S.left source.old) (λ xs. HasRest xs (S.left source.new)) }
    ensures later { S.faults source.old ≤ S.faults source.new }
{
    let mut bytes = Vec::new(alloc);
    let mut piece = [0; BUFFER_SIZE];
    loop {
        let count = match source.read(&mut piece) {
            Ok(count) => count,
            Err(_) => return Err(ReadAll::ReadFault),
        };
        if count == 0 {
            return Ok(bytes);
        }
        if count > limit - bytes.len() {
            return Err(ReadAll::TooLong);
        }
        if bytes.extend_from_slice(&piece[..count]).is_err() {
            return Err(ReadAll::NoMemory);
        }
    }
}
