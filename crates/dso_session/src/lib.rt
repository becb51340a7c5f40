//! The two ends of a client's connection: messages are numbered, kept until the other end has seen them, and given up
//! in order and once, whatever breaks between.
//!
//! A caller:
//!
//! ```rust
//! use dso_base::{NoMemory, Up};
//! use dso_session::{Accepted, Session};
//! use std::alloc::Global;
//!
//! /// A message whose first frame is lost, as the connection breaks, comes with the next: `Some(Up(Flushed(5), 1))`.
//! fn sent_over_a_break(alloc: Global) -> Result<Option<Accepted<Up>>, NoMemory> {
//!     let mut server: Session<Up> = Session::server(alloc);
//!     let mut client: Session<Up> = Session::client(alloc);
//!     client.send(Up::Flushed(5), 1)?;
//!     client.next_frame()?;
//!     server.break_now();
//!     if let Some(hello) = server.next_frame()? {
//!         client.accept(hello);
//!     }
//!     if let Some(hello) = client.next_frame()? {
//!         server.accept(hello);
//!     }
//!     match client.next_frame()? {
//!         Some(frame) => Ok(Some(server.accept(frame))),
//!         None => Ok(None),
//!     }
//! }
//! ```
#![tactic(auto)]

mod frame;
mod laws;
mod session;

pub use frame::{Accepted, Frame};
pub use laws::{frames_carry_what_was_sent, given_up_once};
pub use session::{Posted, Role, Session};
