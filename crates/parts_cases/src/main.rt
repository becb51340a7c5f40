//! Rows of calls of the parts of a client and of a server, with what each answers.
//!
//! A row of the input is a sentence, `: `, and a command; it is printed as the sentence, `: `, and the answer. Any
//! other line is printed as it stands, and all parts are new from there on. The commands are told in `parts.rt`.
#![tactic(auto)]

mod block_rows;
mod block_words;
mod holds;
mod ids;
mod leases;
mod locks;
mod parts;
mod plain_calls;
mod plain_holds;
mod plain_leases;
mod plain_locks;
mod plain_store;
mod plain_table;
mod record_words;
mod server_parts;
mod store_records;
mod store_rows;
mod store_sweeps;
mod table_rows;
mod unacked_rows;
mod waits;

use parts::Parts;
use std::io;

fn main(rt: HostRuntime) -> io::Result<()> {
    let mut parts = Parts::new(rt.alloc())?;
    for line in rt.lines(rt.alloc()) {
        let answer = parts.answered(rt.alloc(), line?.as_str())?;
        println!(rt; "{answer}")?;
    }
    Ok(())
}
