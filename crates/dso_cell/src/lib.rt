//! The nodes of a cluster that runs in threads: each client's cell and the server's have a core with its log and its
//! ends of the rings.
//!
//! The definitions in `specs/` say what a log is by itself, what a cell's parts say of each other, and what a cell
//! behind a lock stands for. What becomes of bytes from outside (`dso_admission`) is offered beside the cells.
#![tactic(auto)]

mod client_cell;
mod client_pair;
mod due;
mod limits;
mod locked_client;
mod locked_server;
mod made;
mod meeting;
mod naming;
mod opening;
mod refusal;
mod server_cell;
mod server_end;
mod server_ends;

pub use client_cell::ClientCell;
pub use client_pair::ClientPair;
pub use dso_admission::{Admitted, admit, admit_frame};
pub use locked_client::LockedClient;
pub use locked_server::LockedServer;
pub use naming::Naming;
pub use opening::cells;
pub use server_cell::ServerCell;
pub use server_end::ServerEnd;
