//! Where bytes come from and where they go: the traits `Source` and `Sink`, each with a count of its faults. `MemorySource` and `MemorySink`
//! are for tests and fail at just the calls that are listed. `StdStream` is over a reader or a writer of std.
//!
//! Read first `source.rt` and `sink.rt`, and `specs/Told`: what a read and a write do to the bytes. An object that does not tell its bytes
//! has no clause on them.
#![tactic(auto)]

mod memory_sink;
mod memory_source;
mod sink;
mod source;
mod standard;
mod turn;

pub use memory_sink::MemorySink;
pub use memory_source::MemorySource;
pub use sink::Sink;
pub use source::Source;
pub use standard::StdStream;
