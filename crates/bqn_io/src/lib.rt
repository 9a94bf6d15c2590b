//! Devices: where bytes come from, where they go, and who keeps files.
#![tactic(auto)]

mod calls;
mod disk_files;
mod failed;
#[cfg(test)]
mod fake;
mod files;
mod memory_files;
mod memory_sink;
mod memory_source;
mod sink;
mod source;
mod std_sink;
mod std_source;

pub use disk_files::DiskFiles;
pub use failed::Failed;
pub use files::{FetchError, Fetched, Files};
pub use memory_files::MemoryFiles;
pub use memory_sink::MemorySink;
pub use memory_source::MemorySource;
pub use sink::Sink;
pub use source::Source;
pub use std_sink::StdSink;
pub use std_source::StdSource;
