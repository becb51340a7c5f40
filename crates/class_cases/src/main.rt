//! Runs the cases of stdin: what the names of a text answer, which program it is, and what its first thread asks.
//!
//! Each line is a word, `:` and what the word says.
//!
//! - `configuration` and `classes` stand for all cases behind them: the text of the configuration, and the classes
//!   in front of a thread's statements.
//! - `case` begins a case with its name.
//! - `names` asks what the names of a text answer, `program` which program it is, `symbols` which words its classes and
//!   fields have, and `edge` what so many parts of a text and one more answer.
//! - `thread` gives the statements of a thread, or `text` a whole text, and `replies` what it is to be answered, with
//!   `; ` between them: what it asks is printed with its reply. By `holds`, the same, it is printed with the objects
//!   that the thread holds where it asks.
//! - `words` asks what is kept of the configuration, and `laws` that the laws of the names hold.
//!
//! In the text of a configuration, and in those that `names` and `edge` ask of, `~` stands before the two hexadecimal
//! digits of a byte, and `` `64 (` `` stands for 64 times what is behind the space, in which `#` is the number of the
//! time; in those of `edge` `*` stands for how many parts there are.
//!
//! Behind the line `== locks` stand rows of the lock checker (`locks`), behind `== texts of programs` texts with what
//! `parse` answers (`syntax_row`), and behind `== configurations` texts with what `read_config` answers (`config_row`).
#![tactic(auto)]

mod config_row;
mod config_text;
mod edge;
mod exchange;
mod locks;
mod names;
mod program;
mod setting;
mod symbols;
mod syntax_row;
mod tree_text;

use setting::Setting;
use std::io;

fn main(rt: HostRuntime) -> io::Result<()> {
    let text = io::read_to_string(rt.alloc(), rt.reader())?;
    let text = text.as_str();
    let (of_cases, behind) = text.split_once("== locks\n").unwrap_or((text, ""));
    let (of_locks, behind) = behind
        .split_once("== texts of programs\n")
        .unwrap_or((behind, ""));
    let (of_texts, of_configurations) = behind
        .split_once("== configurations\n")
        .unwrap_or((behind, ""));
    show(&rt, of_cases)?;
    locks::show(&rt, of_locks)?;
    show_texts(&rt, of_texts)?;
    show_configurations(&rt, of_configurations)
}

/// Prints what the lines of a text ask for.
fn show(rt: &HostRuntime, text: &str) -> io::Result<()> {
    let mut setting = Setting::new(rt.alloc());
    for line in text.lines() {
        match setting.take(rt.alloc(), line) {
            Ok(answer) => print!(rt; "{answer}")?,
            Err(_) => return Err(io::Error::from(io::ErrorKind::OutOfMemory)),
        }
    }
    Ok(())
}

/// Prints what `parse` answers of each row.
fn show_texts(rt: &HostRuntime, text: &str) -> io::Result<()> {
    for row in text.lines() {
        let answer = syntax_row::answered(rt.alloc(), row)?;
        println!(rt; "{answer}")?;
    }
    Ok(())
}

/// Prints what `read_config` answers of each row.
fn show_configurations(rt: &HostRuntime, text: &str) -> io::Result<()> {
    for row in text.lines() {
        let answer = config_row::answered(rt.alloc(), row)?;
        println!(rt; "{answer}")?;
    }
    Ok(())
}
