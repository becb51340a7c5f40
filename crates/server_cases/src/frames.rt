//! The bytes that a client sends, by the words of a row.

use crate::messages::message;
use crate::server_ends::Cluster;
use case_words::{bytes_of, count, first_of, number};
use dso_base::{Both, NoMemory, Up};
use dso_session::{Frame, Session};
use dso_wire::{can_encode_up, encode_up};
use std::alloc::Global;

/// The clock of a frame that is made here.
const CLOCK: u64 = 2;

/// The bytes of the words; None where they tell none, or there is no such client.
pub fn sent_bytes(
    alloc: Global,
    cluster: &Cluster,
    client: u8,
    words: &str,
) -> Result<Option<Vec<u8>>, NoMemory> {
    let (word, rest) = first_of(words);
    if word == "bytes" {
        let bytes = bytes_of(alloc, rest)?;
        return Ok(Some(bytes));
    }
    let frame = match word {
        "hello" => hello(rest),
        "frame" => carried(alloc, rest)?,
        "sends" => next(alloc, cluster.end(client), rest)?,
        _ => None,
    };
    match frame {
        Some(frame) => encoded(alloc, &frame),
        None => Ok(None),
    }
}

/// The bytes of the frame, None where it has none.
fn encoded(alloc: Global, frame: &Frame<Up>) -> Result<Option<Vec<u8>>, NoMemory> {
    if !can_encode_up(frame) {
        return Ok(None);
    }
    let bytes = encode_up(alloc, frame)?;
    Ok(Some(bytes))
}

/// A Hello of this epoch, seen and clock.
fn hello(text: &str) -> Option<Frame<Up>> {
    let (epoch, rest) = first_of(text);
    let (seen, clock) = first_of(rest);
    Some(Frame::Hello {
        epoch: count(epoch)?,
        seen: number(seen)?,
        clock: number(clock)?,
    })
}

/// A frame of this epoch, number, seen and clock, with its message.
fn carried(alloc: Global, text: &str) -> Result<Option<Frame<Up>>, NoMemory> {
    let (epoch, rest) = first_of(text);
    let (place, rest) = first_of(rest);
    let (seen, rest) = first_of(rest);
    let (clock, said) = first_of(rest);
    let Some(message) = message(alloc, said)? else {
        return Ok(None);
    };
    let (Some(epoch), Some(number), Some(seen), Some(clock)) = (
        count(epoch),
        number(place),
        number(seen),
        number(clock),
    ) else {
        return Ok(None);
    };
    Ok(Some(Frame::Carry {
        epoch,
        number,
        seen,
        clock,
        message,
    }))
}

/// The next frame of the connection, with the message.
fn next(
    alloc: Global,
    end: Option<&Session<Both>>,
    text: &str,
) -> Result<Option<Frame<Up>>, NoMemory> {
    let (Some(end), Some(message)) = (end, message(alloc, text)?) else {
        return Ok(None);
    };
    Ok(Some(Frame::Carry {
        epoch: end.epoch(),
        number: end.accepted().saturating_add(1),
        seen: 0,
        clock: CLOCK,
        message,
    }))
}
