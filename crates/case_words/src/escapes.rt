//! Texts of any bytes in a line: `~` stands before the two hexadecimal digits of a byte. `` `64 (` `` stands for 64 times what is behind
//! the space, in which `#` is the number of the time, counted from 1.

ghost use Rattle.std.specs.Prelude.{◌≤◌};

use crate::numbers::count;
use std::alloc::{AllocError, Global};

/// The bytes of a text as it is written in a row.
pub fn unescaped(alloc: Global, written: &str) -> Result<Vec<u8>, AllocError> {
    let mut text = Vec::new(alloc);
    let mut repeats = false;
    for part in written.split('`') {
        if repeats {
            repeat(alloc, &mut text, part)?;
        } else {
            add_bytes(&mut text, part)?;
        }
        repeats = !repeats;
    }
    Ok(text)
}

/// Adds so many times what is behind the space; nothing where there is no number before one.
fn repeat(alloc: Global, text: &mut Vec<u8>, part: &str) -> Result<(), AllocError> {
    let Some((number, part)) = part.split_once(' ') else {
        return Ok(());
    };
    for time in 0..count(number).unwrap_or(0) {
        add_numbered(alloc, text, part, time)?;
    }
    Ok(())
}

/// Adds the bytes, where `#` stands for the number of the time, counted from 1.
fn add_numbered(
    alloc: Global,
    text: &mut Vec<u8>,
    part: &str,
    time: u32,
) -> Result<(), AllocError> {
    for (at, piece) in part.split('#').enumerate() {
        if at > 0 {
            let number = format!(in alloc; "{}", u64::from(time) + 1)?;
            text.extend_from_slice(number.as_bytes())?;
        }
        add_bytes(text, piece)?;
    }
    Ok(())
}

/// Adds the bytes, where `~` and two hexadecimal digits stand for one.
fn add_bytes(text: &mut Vec<u8>, part: &str) -> Result<(), AllocError> {
    for (at, piece) in part.split('~').enumerate() {
        match piece.as_bytes() {
            [high, low, rest @ ..] if at > 0 => {
                text.push(16 * digit(*high) + digit(*low))?;
                text.extend_from_slice(rest)?;
            }
            bytes => text.extend_from_slice(bytes)?,
        }
    }
    Ok(())
}

/// The value of a hexadecimal digit, 0 of another byte.
fn digit(byte: u8) -> u8
    ensures { result ≤ 15 }
{
    match byte {
        b'0'..=b'9' => byte - b'0',
        b'a'..=b'f' => byte - b'a' + 10,
        _ => 0,
    }
}
