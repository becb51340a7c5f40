//! The rows of the input.

use dso_base::NoMemory;
use dso_gen::{big_line, generate};
use std::alloc::{AllocError, Global};

/// The answer to a row: its sentence, and below it the texts that it asks for.
pub fn answered(alloc: Global, row: &str) -> Result<String, AllocError> {
    let Some((sentence, asked)) = row.split_once(": ") else {
        return format!(in alloc; "no row\n");
    };
    match texts(alloc, asked) {
        Ok(Some(texts)) => format!(in alloc; "{sentence}\n{texts}"),
        Ok(None) => format!(in alloc; "{sentence}\nnothing is asked\n"),
        Err(_) => Err(AllocError),
    }
}

/// The texts that are asked for: `load N` or `line N TOTAL`.
fn texts(alloc: Global, asked: &str) -> Result<Option<String>, NoMemory> {
    let mut words = asked.split(' ');
    let (Some(word), Some(number)) = (words.next(), words.next()) else {
        return Ok(None);
    };
    let Ok(number) = number.parse() else {
        return Ok(None);
    };
    match (word, words.next()) {
        ("load", None) => load(alloc, number),
        ("line", Some(total)) => line(alloc, number, total),
        _ => Ok(None),
    }
}

/// The configuration, a line between, and the program.
fn load(alloc: Global, number: u32) -> Result<Option<String>, NoMemory> {
    let (mut texts, mut program) = generate(alloc, number)?;
    texts.extend_from_slice(b"--\n")?;
    texts.append(&mut program)?;
    Ok(String::from_utf8(texts).ok())
}

/// The line of the number's run.
fn line(alloc: Global, number: u32, total: &str) -> Result<Option<String>, NoMemory> {
    let Ok(total) = total.parse() else {
        return Ok(None);
    };
    Ok(String::from_utf8(big_line(alloc, number, total)?).ok())
}
