//! The report of what a program did: its threads with what they printed, the count of unguarded reads, and the graph;
//! the graph of a table of bodies alone; and the text of a journal.
//!
//! A caller:
//!
//! ```rust
//! ghost use Rattle.dso_base.specs.Following.{Listed};
//! ghost use Rattle.dso_class.specs.Sound.{IsSoundProgram};
//! ghost use Rattle.dso_machine.specs.Next.{next_request};
//! ghost use Rattle.dso_plain.specs.History.{IsLegal};
//!
//! use dso_base::{Event, NoMemory};
//! use dso_class::Program;
//! use dso_plain::Plain;
//! use dso_report::report;
//! use std::alloc::Global;
//!
//! /// The report of the heap that a legal history of the program leads to.
//! fn report_after(alloc: Global, program: &Program, history: &[Event]) -> Result<Vec<u8>, NoMemory>
//!     requires sound { IsSoundProgram program.now }
//!     requires legal { IsLegal (next_request program.now.code) (Listed (next_request program.now.code))
//!         program.now.code.shape history.now }
//! {
//!     let mut plain = Plain::new(alloc, &program.code.shape)?;
//!     for event in history {
//!         plain.apply(alloc, &program.code.shape, event)?;
//!     }
//!     report(alloc, program, &plain)
//! }
//! ```
#![tactic(auto)]

mod body_graph;
mod body_table;
mod counters;
mod event_words;
mod graph_lines;
mod held;
mod journal_lines;
mod journal_words;
pub mod laws;
mod map_lines;
mod maps;
mod message_words;
mod numbering;
mod program_report;
mod seen;
mod state_report;
mod thread_lines;
mod unwritten;
mod value_texts;
mod written;

pub use body_graph::graph;
pub use counters::counter_total;
pub use journal_lines::journal_text;
pub use program_report::report;
