//! Where the program's bytes come from and where they go: sources and sinks, over memory and over std's readers and
//! writers. Each counts its faults, so that a caller can tell a fault of this call from an answer that was made up.
#![tactic(auto)]

mod memory;
mod standard;
mod streams;

pub use memory::{MemSink, MemSource};
pub use standard::{StdSink, StdSource};
pub use streams::{Failed, Sink, Source, WriteFault};
