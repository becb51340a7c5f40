//! The parts that the rows speak of, and the answer to a row.
//!
//! | Command | What it calls |
//! |---|---|
//! | `ids take` | the pool and the source of ids (`ids.rt`) |
//! | `wait add 1.1` | the list of waiting threads (`waits.rt`) |
//! | `hold enter 1.1 m5 read 1` | the list of holds (`holds.rt`) |
//! | `hold random 7 500` | 500 calls drawn from a number, beside a plain list of holds (`plain_holds.rt`) |
//! | `lease want m5 read outer` | the leases (`leases.rt`) |
//! | `lease random 7 500` | 500 calls drawn from a number, beside a plain list of locks (`plain_leases.rt`) |
//! | `block put 0 0 r5` | what a thread has in hand, and the record of it (`block_rows.rt`) |
//! | `unacked add 1` | the records that are not acknowledged (`unacked_rows.rt`) |
//! | `table new 2` | the table of objects (`table_rows.rt`) |
//! | `table random 7 500` | 500 calls drawn from a number, beside a plain list of objects (`plain_table.rt`) |
//! | `lock request 1 m5 write` | the server's table of locks (`locks.rt`) |
//! | `lock random 7 500` | 500 calls drawn from a number, beside plain lists of leases and requests (`plain_locks.rt`) |
//! | `store publish 1 1 5` | the server's graph (`store_rows.rt`) |
//! | `store random 7 500` | 500 calls drawn from a number, beside plain lists of values and holders (`plain_store.rt`) |

use crate::block_rows::Hand;
use crate::server_parts::ServerParts;
use crate::{holds, ids, leases, table_rows, unacked_rows, waits};
use case_words::{first_of, row_answer};
use dso_base::NoMemory;
use dso_hold::Hold;
use dso_ids::{IdPool, IdSource};
use dso_lease::Leases;
use dso_table::Table;
use dso_txn::Unacked;
use dso_wait::WaitList;
use std::alloc::{AllocError, Global};

/// One of each.
#[derive(Drop)]
pub struct Parts {
    pool: IdPool,
    source: IdSource,
    waiters: WaitList,
    holds: Hold,
    leases: Leases,
    hand: Hand,
    unacked: Unacked,
    table: Option<Table>,
    server: ServerParts,
}

impl Parts {
    /// All new.
    pub fn new(alloc: Global) -> Result<Parts, AllocError> {
        let Ok(server) = ServerParts::new(alloc) else {
            return Err(AllocError);
        };
        Ok(Parts {
            pool: IdPool::new(),
            source: IdSource::new(),
            waiters: WaitList::new(alloc),
            holds: Hold::new(alloc),
            leases: Leases::new(alloc),
            hand: Hand::new(alloc),
            unacked: Unacked::new(alloc),
            table: None,
            server,
        })
    }

    /// What is printed for the line.
    pub fn answered(&mut self, alloc: Global, line: &str) -> Result<String, AllocError> {
        let Some((name, command)) = line.split_once(": ") else {
            *self = Parts::new(alloc)?;
            return format!(in alloc; "{line}");
        };
        let (word, rest) = first_of(command);
        let answer = self.told(alloc, word, rest);
        row_answer(alloc, name, answer)
    }

    /// The answer to the command.
    fn told(&mut self, alloc: Global, word: &str, rest: &str) -> Result<String, NoMemory> {
        match word {
            "ids" => ids::told(alloc, &mut self.pool, &mut self.source, rest),
            "wait" => waits::told(alloc, &mut self.waiters, rest),
            "hold" => holds::told(alloc, &mut self.holds, rest),
            "lease" => leases::told(alloc, &mut self.leases, rest),
            "block" => self.hand.told(alloc, rest),
            "unacked" => unacked_rows::told(alloc, &mut self.unacked, rest),
            "table" => table_rows::told(alloc, &mut self.table, rest),
            _ => self.server.told(alloc, word, rest),
        }
    }
}
