//! The outside as the program sees it: files and a sink, in memory and of the system.
#![tactic(auto)]

mod environment;
mod failed_reads;
mod mem_files;
mod mem_sink;
mod std_files;
mod std_sink;
mod writing;

pub use environment::{Failed, FileFault, Files, Sink};
pub use mem_files::MemFiles;
pub use mem_sink::MemSink;
pub use std_files::StdFiles;
pub use std_sink::StdSink;
pub use writing::write_text;
