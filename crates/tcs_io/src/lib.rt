//! Bytes in and bytes out: the traits that the programs read and write through, sources and sinks in memory
//! that tell their bytes, and thin adapters over the standard streams.
#![tactic(auto)]

mod fault_plan;
mod memory_sink;
mod memory_source;
mod reading;
mod std_sink;
mod std_source;
mod sure_sink;
mod sure_source;
#[cfg(test)]
mod tests;
mod writing;

pub use memory_sink::MemSink;
pub use memory_source::MemSource;
pub use reading::{Failed, Source};
pub use std_sink::StdSink;
pub use std_source::StdSource;
pub use sure_sink::SureSink;
pub use sure_source::SureSource;
pub use writing::{Sink, SinkStop, write_all};
