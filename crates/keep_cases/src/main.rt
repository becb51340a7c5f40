//! Rows of stores: made, added to, stopped by their disk, and reopened.
//!
//! A row of the input is a sentence, `: `, and a command; it is printed as the sentence, `: `, and the answer. Any other
//! line is printed as it stands. Bytes are two digits each, small letters. The program's shape has one class, of a long
//! and an object, one root, and two texts.
//!
//! | Command | What it answers |
//! |---|---|
//! | `packet 01 0000000000000001 ..` | how many bytes these are; from there on the row's name stands for them: a client's byte, and a record |
//! | `create 00` | what `create` answers on a disk with these bytes, and the bytes after it |
//! | `reopen 01 00000026 ..` | to what these bytes reopen: client and number of each record, and the objects of the graph |
//! | `store STOP NAMES` | the file to which the named packets were added, on a disk that stops at this call |
//! | `calls STOP NAMES` | what the last call answers there, and to what each image of the disk reopens |
//! | `cut FROM STOP NAMES` | to what the first bytes of that file reopen, so many from this number on; each answer with the first number |
//! | `spoiled FROM STOP NAMES` | to what it reopens with another byte at each place from this one on, and how often |
//! | `gates AT STOP NAMES` | to what it reopens with each byte at this place, and how often |
//! | `system CALLS` | what each of these calls answers, given to one disk of the system in a folder of its own |
//!
//! A disk that stops at call 0 never stops. The folder is made in the one for temporary files and removed at the end.
#![tactic(auto)]

mod changed;
mod packets;
mod reopened;
mod stopped;
mod system;
mod tally;

use case_words::{bytes_of, first_of, row_answer};
use dso_base::NoMemory;
use packets::Packets;
use std::alloc::Global;
use std::{env, fs, io};
use stopped::Stopped;

fn main(rt: HostRuntime) -> io::Result<()> {
    let mut packets = Packets::new(rt.alloc());
    let folder = system::folder_in(&rt, env::temp_dir(&rt)?.as_path())?;
    for line in rt.lines(rt.alloc()) {
        let line = line?;
        let Some((name, command)) = line.split_once(": ") else {
            println!(rt; "{line}")?;
            continue;
        };
        let answer = match command.split_once(' ') {
            Some(("system", calls)) => system::answers(&rt, folder.as_str(), calls),
            _ => told(rt.alloc(), &mut packets, name, command),
        };
        let row = row_answer(rt.alloc(), name, answer)?;
        println!(rt; "{row}")?;
    }
    fs::remove_dir_all(&rt, folder.as_str())
}

/// The answer to a command.
fn told(
    alloc: Global,
    packets: &mut Packets,
    name: &str,
    command: &str,
) -> Result<String, NoMemory> {
    let (word, rest) = first_of(command);
    match word {
        "packet" => packets.add(alloc, name, rest),
        "create" => stopped::created(alloc, rest),
        "reopen" => reopened::whole(alloc, &bytes_of(alloc, rest)?),
        "store" => Stopped::over(alloc, packets, rest)?.bytes(alloc),
        "calls" => Stopped::over(alloc, packets, rest)?.images(alloc),
        _ => at_place(alloc, packets, word, rest),
    }
}

/// The answer to a command that changes the file at a place and behind it.
fn at_place(alloc: Global, packets: &Packets, word: &str, rest: &str) -> Result<String, NoMemory> {
    let (place, rest) = first_of(rest);
    let place = case_words::number(place).unwrap_or(0) as usize;
    let file = Stopped::over(alloc, packets, rest)?.file(alloc)?;
    match word {
        "cut" => changed::cut(alloc, &file, place),
        "spoiled" => changed::spoiled(alloc, &file, place),
        _ => changed::gates(alloc, &file, place),
    }
}
