//! Rows of frames and records as bytes, both ways.
//!
//! A row of the input is a sentence, `: `, and a command; it is printed as the sentence, `: `, and the answer. Any
//! other line is printed as it stands. Bytes are two digits each, small letters; spaces between them mean nothing.
//!
//! | Command | What it answers |
//! |---|---|
//! | `up 01 00000000 ..` | the frame that comes up as these bytes and the bytes of that frame, or the fault |
//! | `down 02 00000000 ..` | the same of a frame that comes down |
//! | `record 00000001 ..` | the same of a record |
//! | `cut up 01 00000000 ..` | the answer to the first 0, 1, 2, .. of the bytes, as long as they aren't all |
//! | `set ff up 01 00000000 ..` | the answer where the first, the second, .. byte is another one; a dot where it is a frame |
//! | `say request m5 write` | the bytes of a message up of number 1 and clock 2, or `no` where it can't be encoded |
//! | `tell wake m5 1.2` | the same of a message down |
//!
//! What can be said is `request LOCK LEVEL`, `return LOCK THREADS` and `commit THREAD LOCK WHOM`, a record with one
//! notification; what can be told is `wake LOCK THREAD`.

use crate::{answers, said};
use case_words::{first_of, row_answer};
use dso_base::NoMemory;
use std::alloc::Global;
use std::io;

/// Prints what the rows of a text are answered.
pub fn show(rt: &HostRuntime, text: &str) -> io::Result<()> {
    for line in text.lines() {
        let Some((name, command)) = line.split_once(": ") else {
            println!(rt; "{line}")?;
            continue;
        };
        let row = row_answer(rt.alloc(), name, told(rt.alloc(), command))?;
        println!(rt; "{row}")?;
    }
    Ok(())
}

/// The answer to a command.
fn told(alloc: Global, command: &str) -> Result<String, NoMemory> {
    let (word, rest) = first_of(command);
    match word {
        "cut" => answers::cut(alloc, rest),
        "set" => answers::set(alloc, rest),
        "say" => said::up(alloc, rest),
        "tell" => said::down(alloc, rest),
        _ => answers::whole(alloc, word, rest),
    }
}
