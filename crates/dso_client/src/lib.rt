//! The client: its threads act on the copies, leases and ids that it has, and it takes what the server sends.
//!
//! What it keeps stands for its entries in a journal (`ClientStands`), and each call makes the entry that the client
//! rule allows there.
//!
//! A caller:
//!
//! ```rust
//! ghost use Rattle.dso_client.specs.Openings.{HasThreads};
//! ghost use Rattle.dso_machine.specs.Sound.{IsSoundCode};
//!
//! use dso_base::{Down, NoMemory};
//! use dso_client::{Acted, Client};
//! use dso_machine::Code;
//! use std::alloc::Global;
//!
//! /// What the one thread of client 1 does, where it first makes an object: it asks for ids, and has them.
//! fn first_object(alloc: Global, code: &Code) -> Result<Acted, NoMemory>
//!     requires sound { IsSoundCode code.now }
//!     requires there { HasThreads code.now 1 1 }
//! {
//!     let mut client = Client::new(alloc, code, 1, 1, 4096)?;
//!     let (acted, _) = client.act(alloc, code, 1)?;
//!     if acted != Acted::Asked {
//!         return Ok(acted);
//!     }
//!     client.take(alloc, code, &Down::Ids(1))?;
//!     let (acted, _) = client.act(alloc, code, 1)?;
//!     Ok(acted)
//! }
//! ```
#![tactic(auto)]

mod act_effect;
mod acted;
mod answered;
mod answered_act;
mod asked_act;
mod cause;
mod client;
mod client_state;
mod context_effect;
mod due_lease;
mod hand_effect;
mod hold_effect;
mod known_objects;
pub mod laws;
mod lease_return;
mod lock_state;
mod lock_state_effect;
mod locks;
mod message_effect;
mod message_fit;
mod named;
mod object_effect;
mod object_flush;
mod opening;
mod reply;
mod sent_record;
mod sequences;
mod taken_message;
mod thread_act;
mod thread_context;
mod thread_progress;
mod turn;
mod unmet_need;

pub use acted::Acted;
pub use cause::Cause;
pub use client::Client;
