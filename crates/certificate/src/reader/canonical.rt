//! Which bytes are the canonical text of an instance.

ghost use Rattle.std.specs.Prelude.{◌≡◌, ℕ, List, Some, Ok, Err, length, bytes_eq, IfOk, OnErr};
ghost use Rattle.port_io.specs.Bytes.{told};
ghost use Rattle.port_io.specs.Output.{Wrote, sink_view};
ghost use Rattle.port_io.specs.MemoryPorts.{sure_taken};
ghost use Rattle.siting_definitions.specs.InstanceText.{instance_text, has_cutoff};
ghost use Rattle.instance_text.specs.Reading.{reading};
ghost use Rattle.certificate.specs.HeadReading.{same_version as are_same};
ghost use Rattle.certificate.specs.PartReading.{kept_part, Canonical, IsInstanceError};

use crate::reader::AnswerError;
use crate::reader::instance::Part;
use instance_text::{InstanceError, read_instance, write_instance};
use port_io::{Out, Sink, SureSink, WriteFault};
use site_model::Instance;
use std::alloc::Global;

/// Writes the canonical text of an instance.
fn put_instance<K: Sink>(instance: &Instance, sink: &mut K) -> Result<(), WriteFault>
    ensures { Wrote (sink_view K.room K.taken K.faults K.is_strict sink.old)
        (sink_view K.room K.taken K.faults K.is_strict sink.new)
        (instance_text instance.now) result }
{
    let mut out = Out::new(sink);
    write_instance(instance, &mut out)?;
    out.finish()
}

/// Whether a text that was written to a sink with room for these bytes is these bytes.
fn tells(sink: &SureSink, bytes: &[u8]) -> bool
    ensures { (text : List ℕ) → sure_taken sink.now ≡ told (Some (length bytes.now)) text
        → result ≡ bytes_eq text bytes.now }
{
    match sink.bytes() {
        Some(written) => written == bytes,
        None => false,
    }
}

/// Whether these bytes are the canonical text of an instance.
fn is_canonical(alloc: Global, instance: &Instance, bytes: &[u8]) -> Result<bool, AnswerError>
    ensures value { IfOk result
        (λ same. same ≡ bytes_eq (instance_text instance.now) bytes.now) }
    ensures memory { OnErr result (result ≡ Err AnswerError.NoMemory) }
{
    let Ok(mut sink) = SureSink::with_room(alloc, bytes.len()) else {
        return Err(AnswerError::NoMemory);
    };
    match put_instance(instance, &mut sink) {
        Ok(()) => Ok(tells(&sink, bytes)),
        Err(_) => unreachable!(),
    }
}

/// Whether both are of the same version.
fn same_version(second: bool, instance: &Instance) -> bool
    ensures { result ≡ are_same second (has_cutoff instance.now) }
{
    second == instance.has_cutoff()
}

/// The instance, where these bytes are its canonical text and of this version.
fn if_canonical(
    alloc: Global,
    second: bool,
    bytes: &[u8],
    instance: Instance,
) -> Result<Instance, AnswerError>
    ensures value { reading bytes.now ≡ Ok instance → Canonical second bytes.now result }
    ensures errors { IsInstanceError result }
{
    if is_canonical(alloc, &instance, bytes)? && same_version(second, &instance) {
        Ok(instance)
    } else {
        Err(AnswerError::Instance)
    }
}

/// The instance of which the bytes of a part are the canonical text, of this version.
pub(super) fn canonical_instance(
    alloc: Global,
    second: bool,
    part: &Part,
) -> Result<Instance, AnswerError>
    ensures value { (bytes : List ℕ) → part.now ≡ kept_part bytes
        → Canonical second bytes result }
    ensures errors { IsInstanceError result }
{
    let Some(bytes) = part.bytes() else {
        return Err(AnswerError::Instance);
    };
    match read_instance(alloc, bytes) {
        Ok(instance) => if_canonical(alloc, second, bytes, instance),
        Err(InstanceError::Fault(_)) => Err(AnswerError::Instance),
        Err(InstanceError::NoMemory) => Err(AnswerError::NoMemory),
    }
}
