//! Reading and writing bytes with the outside: sources and sinks that say what they gave and took, kept in memory or
//! over standard input and output, and the two loops over them.
#![tactic(auto)]

mod fault;
mod memory;
mod outside;
mod schedule;
mod standard;
mod transfer;

pub use fault::{Failed, InputFault, SinkFault};
pub use memory::{MemorySink, MemorySource, PlainSink, PlainSource};
pub use outside::{Sink, Source};
pub use standard::{StdSink, StdSource};
pub use transfer::{put, read_input};
