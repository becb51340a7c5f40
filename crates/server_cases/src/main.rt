//! Rows of a server: of messages, of losses and of collections, with what it answers, and of triggers, with which are
//! due (`rows`); behind the line `== frames` of bytes that its clients send, lawful or not, with what is told of them
//! (`frame_rows`).
//!
//! A row of the input is a sentence, `: `, and a command; it is printed as the sentence, `: `, and the answer. Any
//! other line is printed as it stands, and all is new from there on.
#![tactic(auto)]

mod admitted;
mod answers;
mod code;
mod collecting;
mod frame_rows;
mod frames;
mod messages;
mod records;
mod rows;
mod server_ends;
mod triggers;

use std::io;

fn main(rt: HostRuntime) -> io::Result<()> {
    let text = io::read_to_string(rt.alloc(), rt.reader())?;
    let text = text.as_str();
    let (of_messages, of_frames) = text.split_once("== frames\n").unwrap_or((text, ""));
    show_rows(&rt, of_messages)?;
    show_frame_rows(&rt, of_frames)
}

/// Prints what the rows of messages are answered.
fn show_rows(rt: &HostRuntime, text: &str) -> io::Result<()> {
    let mut rows = rows::Rows::new(rt.alloc())?;
    for line in text.lines() {
        let answer = rows.answered(rt.alloc(), line)?;
        println!(rt; "{answer}")?;
    }
    Ok(())
}

/// Prints what the rows of bytes are answered.
fn show_frame_rows(rt: &HostRuntime, text: &str) -> io::Result<()> {
    let mut rows = frame_rows::Rows::new(rt.alloc())?;
    for line in text.lines() {
        let answer = rows.answered(rt.alloc(), line)?;
        println!(rt; "{answer}")?;
    }
    Ok(())
}
