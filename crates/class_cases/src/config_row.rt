//! The rows of the input: `SENTENCE: TEXT`, each with what `read_config` answers of its text.
//!
//! In a text `;` stands for a line feed, and `~` before the two hexadecimal digits of a byte. `` `64 (` `` stands for
//! 64 times what is behind the space, in which `#` is the number of the time, counted from 1.

use crate::config_text::configuration;
use case_words::unescaped;
use dso_config::{ConfigFault, read_config};
use std::alloc::{AllocError, Global};
use std::fmt::Write;

/// The answer to a row: its sentence and, behind a colon, what its text says, or what is wrong with it.
pub fn answered(alloc: Global, row: &str) -> Result<String, AllocError> {
    let mut answer = String::new(alloc);
    let Some((sentence, written)) = row.split_once(": ") else {
        answer.push_str("no row")?;
        return Ok(answer);
    };
    answer.push_str(sentence)?;
    answer.push_str(": ")?;
    let text = text_of(alloc, written)?;
    tell(alloc, &mut answer, text.as_slice())?;
    Ok(answer)
}

/// The bytes of a text as it is written in a row.
fn text_of(alloc: Global, written: &str) -> Result<Vec<u8>, AllocError> {
    let lines = written.replace(alloc, ";", "~0a")?;
    unescaped(alloc, lines.as_str())
}

/// Tells what `read_config` answers.
fn tell(alloc: Global, answer: &mut String, text: &[u8]) -> Result<(), AllocError> {
    match read_config(alloc, text) {
        Ok(config) => configuration(answer, &config),
        Err(ConfigFault::NoMemory(_)) => Err(AllocError),
        Err(fault) => write!(answer, "refused: {fault}"),
    }
}
