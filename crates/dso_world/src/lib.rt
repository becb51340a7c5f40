//! The cluster in one program: which steps are open, which one is chosen, and what goes over the connections of its
//! clients.
//!
//! A caller:
//!
//! ```rust
//! ghost use Rattle.dso_class.specs.Sound.{IsSoundProgram};
//!
//! use dso_base::{Journal, NoMemory};
//! use dso_class::Program;
//! use dso_world::World;
//! use std::alloc::Global;
//!
//! /// The journal of a run by round robin, of a thousand entries at most.
//! fn run(alloc: Global, program: &Program) -> Result<Journal, NoMemory>
//!     requires { IsSoundProgram program.now }
//! {
//!     let mut world = World::new(alloc, program)?;
//!     for _turn in 0..1000 {
//!         if world.finished() || world.journal().entries.len() >= 1000 {
//!             break;
//!         }
//!         if let Some(step) = world.choose(None) {
//!             world.step(alloc, program, step)?;
//!         }
//!     }
//!     Ok(world.into_journal())
//! }
//! ```
#![tactic(auto)]

mod asked_again;
mod asking_threads;
mod bits;
mod chooser;
mod client_entry;
mod client_node;
mod client_step;
mod collection;
mod entry_draft;
mod incoming_message;
pub mod laws;
mod link;
mod message_names;
mod named_parts;
mod node_step;
mod nodes;
mod open_steps;
mod opening;
mod pump;
mod seed;
mod server_entry;
mod server_step;
mod slot_test;
mod step;
mod step_table;
mod step_update;
mod touched_threads;
mod world;

pub use chooser::Chooser;
pub use link::Link;
pub use step::Step;
pub use world::World;
