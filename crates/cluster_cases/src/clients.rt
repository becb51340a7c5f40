//! Rows of what one client does that is driven by hand: its threads act, it takes messages and flushes objects, with no
//! server.
//!
//! The input has parts, with an empty line between two of them. A part begins with the lines `program TEXT`,
//! `config TEXT` and `client NUMBER`; the client of that number in that program is new there. In texts `~0a` stands for
//! the end of a line. Each line behind them is a row: a sentence, `: `, and steps with `, ` between two of them. It is
//! printed as the sentence and a line for each step.
//!
//! | Step | What it calls, and what is printed |
//! |---|---|
//! | `act 1` | the thread of that index acts: the entry, or `blocked` and what it lacks, or `over` |
//! | `take grant n0 read` | the client takes this message of the server, as the text of a journal writes it: the entry |
//! | `offer ids 0` | a message comes that doesn't fit: `nothing`, since nothing is sent |
//! | `flush` | an object is flushed: the entry, or `nothing` |
//! | `enabled 1`, `may_flush`, `alive` | what that call answers |
//! | `named`, `edges` | the objects that the client's threads name, and the edges of its copies, each once and in order |
//!
//! An entry is printed as its line in the text of a journal. Its clock counts the entries of the client.

use crate::parts;
use std::alloc::AllocError;
use std::io;

/// Prints what each part of a text is answered.
pub fn show(rt: &HostRuntime, text: &str) -> io::Result<()> {
    for part in text.split("\n\n") {
        match parts::told(rt.alloc(), part) {
            Ok(rows) => print!(rt; "{rows}")?,
            Err(_) => Err(AllocError)?,
        }
    }
    Ok(())
}
