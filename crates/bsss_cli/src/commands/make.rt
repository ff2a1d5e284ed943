//! The command `make`.

ghost use Rattle.bsss_cli.specs.Make as making;
ghost use Rattle.bsss_cli.specs.Ports.{sink_ghosts};
ghost use Rattle.bsss_cli.specs.Outcome.{Ended};
ghost use Rattle.command_line.specs.Command.{IsMaking};
ghost use Rattle.std.specs.Prelude.{Option, List, ℕ};

use crate::output::say_made;
use crate::status::Status;
use case_maker::make_instance;
use port_io::Sink;
use std::alloc::Global;

/// Writes the instance that is made from a seed with so many points.
pub(crate) fn run_make<K: Sink>(alloc: Global, seed: u32, points: u32, sink: &mut K) -> Status
    requires { IsMaking seed points }
    ensures { (told : Option (List ℕ)) → Ended (sink_ghosts K.room K.taken K.faults K.is_strict)
        (making.make seed points) told sink.old sink.new result }
{
    match make_instance(alloc, seed, points) {
        Ok(instance) => say_made(&instance, sink),
        Err(_) => Status::NoMemory,
    }
}
