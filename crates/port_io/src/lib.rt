//! Bytes in and bytes out: sources and sinks that count their faults, reading a whole input,
//! buffered output, ports in memory, and adapters over the readers and writers of `std`.
//!
//! A port says in its contract which bytes it has left or has taken, where it tells them, and
//! how many faults it counted. A call answers a fault only where that count rose in it.
#![tactic(auto)]

mod adapters;
mod buffer;
mod buffered;
mod memory;
mod ports;
mod sure;
#[cfg(test)]
mod tests;
mod whole;

pub use adapters::{StdSink, StdSource};
pub use buffer::{BUFFER_SIZE, Buffer};
pub use buffered::{Out, Piece, WriteFault};
pub use memory::{MemSink, MemSource, NoMemory};
pub use ports::{Failed, Sink, Source};
pub use sure::{SliceSource, SureSink, SureSource};
pub use whole::{ReadAll, read_up_to};
