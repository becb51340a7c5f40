//! What bytes are.

use case_words::{bytes_of, debugged, digits_of, first_of, shown};
use dso_base::NoMemory;
use dso_wire::{
    can_encode_down, can_encode_up, decode_down, decode_record, decode_up, decoded_can_go,
    encode_down, encode_record, encode_up,
};
use std::alloc::Global;

/// The frame or record that the digits are, and its bytes again; or the fault.
pub fn whole(alloc: Global, what: &str, digits: &str) -> Result<String, NoMemory> {
    let bytes = bytes_of(alloc, digits)?;
    match what {
        "up" => up(alloc, &bytes),
        "down" => down(alloc, &bytes),
        _ => record(alloc, &bytes),
    }
}

/// A frame that comes up.
fn up(alloc: Global, bytes: &[u8]) -> Result<String, NoMemory> {
    let frame = match decode_up(alloc, bytes) {
        Ok(frame) => frame,
        Err(fault) => return debugged(alloc, fault),
    };
    if !can_encode_up(&frame) {
        return debugged(alloc, "no");
    }
    let again = digits_of(alloc, &encode_up(alloc, &frame)?)?;
    let text = format!(in alloc; "{frame:?} {again}")?;
    Ok(text)
}

/// A frame that comes down.
fn down(alloc: Global, bytes: &[u8]) -> Result<String, NoMemory> {
    let frame = match decode_down(alloc, bytes) {
        Ok(frame) => frame,
        Err(fault) => return debugged(alloc, fault),
    };
    if !can_encode_down(&frame) {
        return debugged(alloc, "no");
    }
    let again = digits_of(alloc, &encode_down(alloc, &frame)?)?;
    let text = format!(in alloc; "{frame:?} {again}")?;
    Ok(text)
}

/// A record.
fn record(alloc: Global, bytes: &[u8]) -> Result<String, NoMemory> {
    let txn = match decode_record(alloc, bytes) {
        Ok(txn) => txn,
        Err(fault) => return debugged(alloc, fault),
    };
    decoded_can_go();
    let again = digits_of(alloc, &encode_record(alloc, &txn)?)?;
    let text = format!(in alloc; "{txn:?} {again}")?;
    Ok(text)
}

/// The answer to each number of the first bytes that isn't all.
pub fn cut(alloc: Global, text: &str) -> Result<String, NoMemory> {
    let (what, digits) = first_of(text);
    let bytes = bytes_of(alloc, digits)?;
    let mut answers = String::new(alloc);
    for len in 0..bytes.len() {
        let answer = brief(alloc, what, &bytes[..len])?;
        answers = behind(alloc, &answers, &answer)?;
    }
    Ok(answers)
}

/// The answer where each byte in turn is another one.
pub fn set(alloc: Global, text: &str) -> Result<String, NoMemory> {
    let (byte, rest) = first_of(text);
    let (what, digits) = first_of(rest);
    let bytes = bytes_of(alloc, digits)?;
    let other = bytes_of(alloc, byte)?;
    let other = other.first().copied().unwrap_or(0);
    let mut answers = String::new(alloc);
    for at in 0..bytes.len() {
        let mut spoiled = bytes.clone()?;
        spoiled[at] = other;
        let answer = brief(alloc, what, &spoiled)?;
        answers = behind(alloc, &answers, &answer)?;
    }
    Ok(answers)
}

/// An answer behind others.
fn behind(alloc: Global, answers: &str, answer: &str) -> Result<String, NoMemory> {
    if answers.is_empty() {
        return shown(alloc, answer);
    }
    let text = format!(in alloc; "{answers} {answer}")?;
    Ok(text)
}

/// The fault of bytes; a dot where there is none.
fn brief(alloc: Global, what: &str, bytes: &[u8]) -> Result<String, NoMemory> {
    let fault = match what {
        "up" => decode_up(alloc, bytes).err(),
        "down" => decode_down(alloc, bytes).err(),
        _ => decode_record(alloc, bytes).err(),
    };
    match fault {
        None => shown(alloc, '.'),
        Some(fault) => debugged(alloc, fault),
    }
}
