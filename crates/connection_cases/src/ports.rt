//! Rows of calls of the two ends of a connection with its rings, with what each answers.
//!
//! A row of the input is a sentence, `: `, and a command; it is printed as the sentence, `: `, and the answer. Any
//! other line is printed as it stands, and all is new from there on.
//!
//! | Command | What it calls |
//! |---|---|
//! | `client send 7 3` | the client's end says at clock 3 that object 7 is flushed |
//! | `client many 65` | it says so of the objects from 1 to 65, each at the clock of its number |
//! | `client strange` | it returns a lock with a thread of client 17, which there can't be |
//! | `server send 256 3` | the server's end hands out at clock 3 the ids from 256 on |
//! | `server break` | its connection breaks |
//! | `client give`, `server give` | the end's frames go to its ring |
//! | `client take`, `server take` | the end takes a frame from its ring |
//! | `client all`, `server all` | how many frames it takes, until there is none |
//! | `client told`, `server told` | what it tells of itself |

use crate::port_ends::Ends;
use case_words::{first_of, row_answer};
use dso_base::NoMemory;
use std::alloc::{AllocError, Global};
use std::io;

/// Prints what the rows of a text are answered.
pub fn show(rt: &HostRuntime, text: &str) -> io::Result<()> {
    let mut ends = opened(rt.alloc())?;
    for line in text.lines() {
        let Some((name, command)) = line.split_once(": ") else {
            ends = opened(rt.alloc())?;
            println!(rt; "{line}")?;
            continue;
        };
        let answer = told(rt.alloc(), &mut ends, command);
        let row = row_answer(rt.alloc(), name, answer)?;
        println!(rt; "{row}")?;
    }
    Ok(())
}

/// Both ends at first.
fn opened(alloc: Global) -> io::Result<Ends> {
    match Ends::new(alloc) {
        Ok(ends) => Ok(ends),
        Err(_) => Err(AllocError)?,
    }
}

/// The answer to a command.
fn told(alloc: Global, ends: &mut Ends, command: &str) -> Result<String, NoMemory> {
    let (word, rest) = first_of(command);
    match word {
        "client" => ends.told_client(alloc, rest),
        _ => ends.told_server(alloc, rest),
    }
}
