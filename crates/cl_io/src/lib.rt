//! Where schedules come from and where traces go: sources and sinks of bytes that may fail, in
//! memory and over the readers and writers of std.
#![tactic(auto)]

mod failed;
mod mem_sink;
mod mem_source;
mod sink;
mod source;
mod stdin_source;
mod stdout_sink;
mod writing;

pub use failed::Failed;
pub use mem_sink::MemSink;
pub use mem_source::MemSource;
pub use sink::Sink;
pub use source::Source;
pub use stdin_source::StdinSource;
pub use stdout_sink::StdoutSink;
pub use writing::write_all;
