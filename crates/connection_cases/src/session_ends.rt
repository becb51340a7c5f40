//! The two ends of a connection, whose messages tell of flushed objects.

use crate::words::{MOST, number_of};
use case_words::{debugged, first_of, shown};
use dso_base::{NoMemory, Up};
use dso_session::{Frame, Posted, Session};
use std::alloc::Global;

/// Both ends.
#[derive(Drop)]
pub struct Ends {
    pub server: Session<Up>,
    pub client: Session<Up>,
}

impl Ends {
    /// At first.
    pub fn new(alloc: Global) -> Ends {
        Ends {
            server: Session::server(alloc),
            client: Session::client(alloc),
        }
    }
}

/// The answer to a call of one end.
pub fn told(alloc: Global, end: &mut Session<Up>, text: &str) -> Result<String, NoMemory> {
    let (word, rest) = first_of(text);
    match word {
        "send" => sent(alloc, end, rest),
        "next" => debugged(alloc, end.next_frame()),
        "carry" => debugged(alloc, end.accept(carry_of(rest))),
        "hello" => debugged(alloc, end.accept(hello_of(rest))),
        "left" => left(alloc, end, rest),
        _ => broken(alloc, end),
    }
}

/// Sends a message at a clock, where its number fits.
fn sent(alloc: Global, end: &mut Session<Up>, text: &str) -> Result<String, NoMemory> {
    let (message, rest) = number_of(text);
    let (clock, _) = number_of(rest);
    if end.sent() >= MOST {
        return debugged(alloc, "too many");
    }
    end.send(Up::Flushed(message), clock)?;
    debugged(alloc, Ok::<(), NoMemory>(()))
}

/// The messages that are left behind a number.
fn left(alloc: Global, end: &Session<Up>, text: &str) -> Result<String, NoMemory> {
    let (number, _) = number_of(text);
    let (first, second) = end.left(number);
    let text = with_messages(alloc, shown(alloc, "left")?, first)?;
    with_messages(alloc, text, second)
}

/// The text with the messages and their clocks behind it.
fn with_messages(alloc: Global, text: String, all: &[Posted<Up>]) -> Result<String, NoMemory> {
    let mut text = text;
    for posted in all {
        let (message, clock) = (&posted.message, posted.clock);
        text = format!(in alloc; "{text} ; {message:?} at {clock}")?;
    }
    Ok(text)
}

/// Breaks the connection, where the epoch fits.
fn broken(alloc: Global, end: &mut Session<Up>) -> Result<String, NoMemory> {
    if end.epoch() >= 1 << 30 {
        return debugged(alloc, "too often");
    }
    end.break_now();
    debugged(alloc, end.epoch())
}

/// A message: epoch, number, seen, clock, message.
fn carry_of(text: &str) -> Frame<Up> {
    let (epoch, rest) = number_of(text);
    let (number, rest) = number_of(rest);
    let (seen, rest) = number_of(rest);
    let (clock, rest) = number_of(rest);
    let (message, _) = number_of(rest);
    Frame::Carry {
        epoch: u32::try_from(epoch).unwrap_or(0),
        number,
        seen,
        clock,
        message: Up::Flushed(message),
    }
}

/// A Hello: epoch, seen, clock.
fn hello_of(text: &str) -> Frame<Up> {
    let (epoch, rest) = number_of(text);
    let (seen, rest) = number_of(rest);
    let (clock, _) = number_of(rest);
    Frame::Hello {
        epoch: u32::try_from(epoch).unwrap_or(0),
        seen,
        clock,
    }
}
