//! Where bytes come from and where they go: sources and sinks, in memory and over std's readers
//! and writers.
#![tactic(auto)]

mod copying;
mod mem_sink;
mod mem_source;
mod sink;
mod source;
mod std_sink;
mod std_source;
mod sure_sink;
mod sure_source;
mod threads;

pub use mem_sink::MemSink;
pub use mem_source::MemSource;
pub use sink::{Gave, Sink, SinkFault, put_all};
pub use source::{Source, Took};
pub use std::alloc::AllocError as NoMemory;
pub use std_sink::StdSink;
pub use std_source::StdSource;
pub use sure_sink::SureSink;
pub use sure_source::SureSource;
