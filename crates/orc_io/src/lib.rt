//! Sources and sinks of bytes, which count their faults.
//!
//! All that the program reads and writes goes through a `Source` and a `Sink`: a reader, a writer,
//! or bytes in memory that fail at chosen calls. Each counts how often it failed, so that an answer
//! which blames one can be traced to a call that failed. `read_whole` and `write_whole` move all of
//! a text at once, and a `KeptSource` keeps what was read through it. `Steps` counts, for proofs
//! alone, how often something was done.
#![tactic(auto)]

mod kept_source;
mod memory_sink;
mod memory_source;
mod reading;
mod standard;
mod steps;
mod traits;
mod writing;

pub use kept_source::KeptSource;
pub use memory_sink::MemSink;
pub use memory_source::MemSource;
pub use reading::{WholeFault, read_whole};
pub use standard::{StdSink, StdSource};
pub use steps::Steps;
pub use traits::{Failed, Sink, Source};
pub use writing::write_whole;
