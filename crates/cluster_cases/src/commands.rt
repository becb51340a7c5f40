//! The commands, with what each answers as text.

use crate::cluster::Cluster;
use crate::rounds::{Outcome, by_turns, many, rounds, served};
use case_words::{count, debugged, first_of, shown, small};
use dso_base::NoMemory;
use dso_report::journal_text;
use std::alloc::Global;

/// The numbers of a command, 0 where there is none.
#[derive(Clone, Copy)]
struct Numbers {
    client: u8,
    worker: u8,
    turns: u32,
}

/// The answer to a command of cells that are used again.
pub fn told(alloc: Global, cluster: &mut Cluster, command: &str) -> Result<String, NoMemory> {
    let (word, rest) = first_of(command);
    match word {
        "client" | "many" | "turns" => of_client(alloc, cluster, word, rest),
        "server" => of_turn(alloc, cluster.server_turn(alloc)),
        "served" => shown(alloc, served(alloc, cluster, turns_of(rest))),
        "rounds" => of_rounds(alloc, cluster, turns_of(rest)),
        _ => debugged(alloc, "no command"),
    }
}

/// The answer to a command of one client.
fn of_client(
    alloc: Global,
    cluster: &mut Cluster,
    word: &str,
    rest: &str,
) -> Result<String, NoMemory> {
    let (client, behind) = first_of(rest);
    let number = small(client).unwrap_or(0);
    let (worker, turns) = first_of(behind);
    match word {
        "client" => of_turn(alloc, cluster.client_turn(alloc, number, worker_of(worker))),
        "many" => {
            let count = many(alloc, cluster, number, worker_of(worker), turns_of(turns));
            shown(alloc, count)
        }
        _ => of_turns(alloc, by_turns(alloc, cluster, number, turns_of(behind))),
    }
}

/// Whether a turn added an entry.
fn of_turn(alloc: Global, turn: Result<bool, NoMemory>) -> Result<String, NoMemory> {
    match turn {
        Ok(added) => shown(alloc, added),
        Err(refused) => debugged(alloc, refused),
    }
}

/// How many turns of a pump and of the server added an entry.
fn of_turns(alloc: Global, counts: (u64, u64)) -> Result<String, NoMemory> {
    let (pumped, taken) = counts;
    let text = format!(in alloc; "{pumped} of the pump, {taken} of the server")?;
    Ok(text)
}

/// How rounds went, and how many cells are spent.
fn of_rounds(alloc: Global, cluster: &mut Cluster, most: u32) -> Result<String, NoMemory> {
    let Outcome { entries, has_ended } = rounds(alloc, cluster, most);
    let spent = cluster.spent();
    let ended = if has_ended { "ended" } else { "not ended" };
    let text = format!(in alloc; "{entries} entries, {ended}, {spent} spent")?;
    Ok(text)
}

/// How many entries the journal has, and each of them on a line of its own.
pub fn journal(alloc: Global, cluster: Cluster) -> Result<String, NoMemory> {
    let journal = cluster.into_journal(alloc)?;
    let text = journal_text(alloc, &journal)?;
    let lines = String::from_utf8_lossy(alloc, text.as_slice())?;
    let count = journal.entries.as_slice().len();
    let text = format!(in alloc; "{count} entries\n{lines}")?;
    Ok(String::from_str(alloc, text.as_str().trim_end())?)
}

/// The index of a thread, or 0 for the pump.
fn worker_of(word: &str) -> u8 {
    small(word).unwrap_or(0)
}

/// How many turns or rounds.
fn turns_of(word: &str) -> u32 {
    count(word).unwrap_or(0)
}
