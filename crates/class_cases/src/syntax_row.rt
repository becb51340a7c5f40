//! The rows of the input: `SENTENCE: TEXT`, each with what `parse` answers of its text.
//!
//! In a text `~` stands before the two hexadecimal digits of a byte, and `` `64 (` `` stands for 64 times what is
//! behind the space.

use crate::tree_text::program;
use case_words::unescaped;
use dso_syntax::{SyntaxFault, parse};
use std::alloc::{AllocError, Global};
use std::fmt::Write;

/// The answer to a row: its sentence and, behind a colon, the tree or the fault of its text.
///
/// Of a text that repeats something the tree is not told, only that it is a program.
pub fn answered(alloc: Global, row: &str) -> Result<String, AllocError> {
    let mut answer = String::new(alloc);
    let Some((sentence, written)) = row.split_once(": ") else {
        answer.push_str("no row")?;
        return Ok(answer);
    };
    answer.push_str(sentence)?;
    answer.push_str(": ")?;
    let text = unescaped(alloc, written)?;
    tell(alloc, &mut answer, text.as_slice(), written.contains('`'))?;
    Ok(answer)
}

/// Tells what `parse` answers.
fn tell(alloc: Global, answer: &mut String, text: &[u8], short: bool) -> Result<(), AllocError> {
    match parse(alloc, text) {
        Ok(_) if short => answer.push_str("a program"),
        Ok(ast) => program(answer, &ast),
        Err(SyntaxFault::NoMemory(_)) => Err(AllocError),
        Err(fault) => write!(answer, "{fault:?}"),
    }
}
