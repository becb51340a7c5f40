//! The parts of a server.

use crate::{locks, store_rows};
use case_words::shown;
use dso_base::NoMemory;
use dso_locks::LockTable;
use dso_store::Store;
use std::alloc::Global;

/// The table of locks and the graph.
#[derive(Drop)]
pub struct ServerParts {
    locks: LockTable,
    store: Store,
}

impl ServerParts {
    /// Both new.
    pub fn new(alloc: Global) -> Result<ServerParts, NoMemory> {
        let store = store_rows::opened(alloc)?;
        Ok(ServerParts {
            locks: LockTable::new(alloc),
            store,
        })
    }

    /// The answer to a command of the server's parts.
    pub fn told(&mut self, alloc: Global, word: &str, rest: &str) -> Result<String, NoMemory> {
        match word {
            "lock" => locks::told(alloc, &mut self.locks, rest),
            "store" => store_rows::told(alloc, &mut self.store, rest),
            _ => shown(alloc, "no such command"),
        }
    }
}
