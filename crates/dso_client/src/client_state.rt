//! All that a client keeps.
use crate::lock_state::LockState;
use crate::sequences::Sequences;
use crate::thread_context::ThreadContext;
use dso_base::NoMemory;
use dso_table::Table;

/// The client's number, a context for each of its threads, its objects, its locks, and its ids and records; and the
/// refusal that spent it, if one did.
#[derive(Drop)]
pub struct ClientState {
    pub number: u8,
    pub contexts: Vec<ThreadContext>,
    pub table: Table,
    pub lock_state: LockState,
    pub sequences: Sequences,
    pub spent: Option<NoMemory>,
}
