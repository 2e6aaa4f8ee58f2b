//! Where bytes come from and go to: sources and sinks that may fail, and count their faults.
#![tactic(auto)]

mod again;
mod laws;
mod mem_sink;
mod mem_source;
mod null_sink;
mod sinks;
mod sources;
mod std_sink;
mod std_source;

pub use laws::limits_are_the_numbers;
pub use mem_sink::MemSink;
pub use mem_source::MemSource;
pub use null_sink::NullSink;
pub use sinks::{Sink, put_all};
pub use sources::{Failed, LIMIT, PIECE, Source};
pub use std_sink::StdSink;
pub use std_source::StdSource;

/// There is no memory for what a call needs.
pub type NoMemory = std::alloc::AllocError;
