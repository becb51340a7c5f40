//! The server with its four clients, and the answer to a row.
//!
//! | Command | What it calls |
//! |---|---|
//! | `1 bytes 03 00000001 ..` | client 1 sends these bytes, two digits each |
//! | `1 frame 0 1 0 2 idask` | it sends the bytes of a frame: epoch, number, seen, clock, and the message, told in `messages.rt` |
//! | `1 hello 1 0 0` | it sends those of a Hello: epoch, seen, clock |
//! | `1 sends idask` | it sends those of the next frame of its connection, at clock 2 |
//! | `1 tries sends idask` | the same as without `tries`, then what each client is answered that asks for ids next; all is made anew |
//! | `1 posts 257` | the server's end sends client 1 the ids from 257 on |
//! | `1 break` | the connection of client 1 breaks |
//! | `1 told` | whether client 1 was lost, and what the server's end tells of itself |
//! | `0 told` | how many batches of ids were given |

use crate::admitted::told;
use crate::frames::sent_bytes;
use crate::server_ends::{CLIENTS, Cluster};
use case_words::{first_of, number, row_answer, shown, small};
use dso_base::NoMemory;
use std::alloc::{AllocError, Global};

/// All of it, with the commands that were done since it was new.
#[derive(Drop)]
pub struct Rows {
    cluster: Cluster,
    done: Vec<String>,
}

/// At first.
fn opened(alloc: Global) -> Result<Rows, NoMemory> {
    let cluster = Cluster::new(alloc)?;
    let done = Vec::new(alloc);
    Ok(Rows { cluster, done })
}

/// Does the command, and answers what it tells.
fn done(alloc: Global, cluster: &mut Cluster, command: &str) -> Result<String, NoMemory> {
    let (first, words) = first_of(command);
    let Some(client) = small(first) else {
        return shown(alloc, "no such client");
    };
    let (word, rest) = first_of(words);
    match word {
        "break" => {
            cluster.break_now(client);
            shown(alloc, "broken")
        }
        "posts" => {
            cluster.post(client, number(rest).unwrap_or(0))?;
            shown(alloc, "posted")
        }
        "told" => state(alloc, cluster, client),
        _ => sent(alloc, cluster, client, words),
    }
}

/// What is told of the client.
fn state(alloc: Global, cluster: &Cluster, client: u8) -> Result<String, NoMemory> {
    let Some(end) = cluster.end(client) else {
        let batches = cluster.batches_given();
        let text = format!(in alloc; "batches {batches}")?;
        return Ok(text);
    };
    let is_lost = cluster.is_lost(client);
    let (accepted, sent, epoch, is_ready) = (
        end.accepted(),
        end.sent(),
        end.epoch(),
        end.is_ready(),
    );
    let text = format!(in alloc;
        "lost {is_lost}, accepted {accepted}, sent {sent}, epoch {epoch}, ready {is_ready}"
    )?;
    Ok(text)
}

/// What is told of the bytes of the words.
fn sent(alloc: Global, cluster: &mut Cluster, client: u8, words: &str) -> Result<String, NoMemory> {
    let Some(bytes) = sent_bytes(alloc, cluster, client, words)? else {
        return shown(alloc, "no such bytes");
    };
    match cluster.admit(alloc, client, bytes.as_slice())? {
        Some((admitted, messages)) => told(alloc, admitted, messages.as_slice()),
        None => shown(alloc, "no such client, or too many batches"),
    }
}

/// The text, with what each client is answered that asks for ids.
fn with_all_asked(alloc: Global, cluster: &mut Cluster, text: String) -> Result<String, NoMemory> {
    let mut text = format!(in alloc; "{text} |")?;
    for place in 0..CLIENTS {
        let client = place + 1;
        if let Some(taken) = cluster.asked(alloc, client)? {
            text = format!(in alloc; "{text} {client} {taken:?}")?;
        }
    }
    Ok(text)
}

/// The command without the word that says that all is made anew behind it; None where it doesn't stand there.
fn tried(alloc: Global, command: &str) -> Result<Option<String>, NoMemory> {
    let (client, words) = first_of(command);
    match words.strip_prefix("tries ") {
        Some(rest) => {
            let text = format!(in alloc; "{client} {rest}")?;
            Ok(Some(text))
        }
        None => Ok(None),
    }
}

impl Rows {
    /// At first.
    pub fn new(alloc: Global) -> Result<Rows, AllocError> {
        match opened(alloc) {
            Ok(rows) => Ok(rows),
            Err(_) => Err(AllocError),
        }
    }

    /// What is printed for the line.
    pub fn answered(&mut self, alloc: Global, line: &str) -> Result<String, AllocError> {
        let Some((name, command)) = line.split_once(": ") else {
            *self = Rows::new(alloc)?;
            return format!(in alloc; "{line}");
        };
        let answer = self.answer(alloc, command);
        row_answer(alloc, name, answer)
    }

    /// The answer to the command.
    fn answer(&mut self, alloc: Global, command: &str) -> Result<String, NoMemory> {
        if let Some(command) = tried(alloc, command)? {
            let text = done(alloc, &mut self.cluster, command.as_str())?;
            let text = with_all_asked(alloc, &mut self.cluster, text)?;
            self.make_anew(alloc)?;
            return Ok(text);
        }
        let text = done(alloc, &mut self.cluster, command)?;
        self.done.push(format!(in alloc; "{command}")?)?;
        Ok(text)
    }

    /// Makes all anew, by the commands that were done.
    fn make_anew(&mut self, alloc: Global) -> Result<(), NoMemory> {
        self.cluster = Cluster::new(alloc)?;
        for command in &self.done {
            done(alloc, &mut self.cluster, command.as_str())?;
        }
        Ok(())
    }
}
