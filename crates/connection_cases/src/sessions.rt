//! Rows of calls of the two ends of a connection and of the logs of nodes, with what each answers.
//!
//! A row of the input is a sentence, `: `, and a command; it is printed as the sentence, `: `, and the answer. Any
//! other line is printed as it stands, and all is new from there on.
//!
//! | Command | What it calls |
//! |---|---|
//! | `client send 7 3` | the client's end says at clock 3 that object 7 is flushed |
//! | `client next` | its next frame |
//! | `server carry 0 1 0 3 7` | the server's end takes a message: epoch, number, seen, clock, message |
//! | `server hello 1 0 0` | it takes a Hello: epoch, seen, clock |
//! | `client left 1` | the messages that the client's end keeps with numbers above 1 |
//! | `server break` | its connection breaks |
//! | `log 2 5` | client 2 (0 is the server) adds an entry, having heard clock 5 |
//! | `merge` | the entries of all logs, by clock and node |

use crate::logs::Logs;
use crate::session_ends::{self, Ends};
use case_words::{first_of, row_answer};
use dso_base::NoMemory;
use std::alloc::Global;
use std::io;

/// Prints what the rows of a text are answered.
pub fn show(rt: &HostRuntime, text: &str) -> io::Result<()> {
    let mut ends = Ends::new(rt.alloc());
    let mut logs = Logs::new(rt.alloc());
    for line in text.lines() {
        let Some((name, command)) = line.split_once(": ") else {
            ends = Ends::new(rt.alloc());
            logs = Logs::new(rt.alloc());
            println!(rt; "{line}")?;
            continue;
        };
        let answer = told(rt.alloc(), &mut ends, &mut logs, command);
        let row = row_answer(rt.alloc(), name, answer)?;
        println!(rt; "{row}")?;
    }
    Ok(())
}

/// The answer to a command.
fn told(
    alloc: Global,
    ends: &mut Ends,
    logs: &mut Logs,
    command: &str,
) -> Result<String, NoMemory> {
    let (word, rest) = first_of(command);
    match word {
        "server" => session_ends::told(alloc, &mut ends.server, rest),
        "client" => session_ends::told(alloc, &mut ends.client, rest),
        "log" => logs.added(alloc, rest),
        _ => logs.merged(alloc),
    }
}
