//! Where a program's bytes come from and go to: sources and sinks that may fail, each with a count of its faults.
//! It knows nothing of what the bytes say.
#![tactic(auto)]

mod adapters;
mod copying;
mod failed;
mod memory_sink;
mod memory_source;
mod read_source;
mod reader;
mod reading;
mod sink;
mod source;
mod steady;
mod write_sink;
mod writer;
mod writing;

pub use failed::Failed;
pub use memory_sink::MemorySink;
pub use memory_source::MemorySource;
pub use read_source::ReadSource;
pub use reader::Reader;
pub use reading::{ReadEnd, read_all};
pub use sink::Sink;
pub use source::Source;
pub use steady::{NullSink, SteadySource};
pub use write_sink::WriteSink;
pub use writer::Writer;
pub use writing::{WriteFault, write_all};
