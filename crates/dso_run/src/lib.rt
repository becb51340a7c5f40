//! The top call: from the words and the files to what is printed.
//!
//! A caller, over files and a sink in memory:
//!
//! ```rust
//! use dso_base::NoMemory;
//! use dso_io::{MemFiles, MemSink};
//! use dso_keep::MemDisk;
//! use dso_run::{Done, without_threads};
//! use std::alloc::Global;
//!
//! /// Runs a program under an empty configuration: how it ended, with its journal, and the sink that took the report.
//! fn run(alloc: Global, program: &str) -> Result<(Option<Done>, MemSink), NoMemory> {
//!     let mut files = MemFiles::new(alloc, &[])?;
//!     files.add(alloc, "c", b"")?;
//!     files.add(alloc, "p", program.as_bytes())?;
//!     let mut words = Vec::new(alloc);
//!     for word in "sim c p".split(' ') {
//!         words.push(String::from_str(alloc, word)?)?;
//!     }
//!     let mut out = MemSink::new(alloc, 4096, 4096, &[])?;
//!     let mut disk = MemDisk::new(alloc, &[], None, 0, 0)?;
//!     let done = without_threads(alloc, words.as_slice(), &mut files, &mut out, &mut disk);
//!     Ok((done, out))
//! }
//! ```
#![tactic(auto)]

mod answers;
mod asked;
mod collecting;
mod exit;
mod failing;
mod journal_file;
mod judging;
pub mod laws;
mod lock_check;
mod main_call;
mod refusal_lines;
mod replay;
mod run_texts;
mod running;
mod status;
mod store_run;
mod stores;
mod threads;
mod verdict;

pub use dso_kept::kept_step;
pub use exit::dso_exit;
pub use main_call::{dso_main, without_threads};
pub use status::{Done, ProgramFault, Status};
pub use threads::NoGate;
