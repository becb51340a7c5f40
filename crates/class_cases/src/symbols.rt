//! Which words stand behind the numbers of a text.

ghost use Rattle.dso_config.specs.InRange.{IsInRange};

use crate::names::{program_of, refusal_line};
use dso_base::{NoMemory, Word};
use dso_class::Names;
use dso_config::Config;
use std::alloc::Global;

/// The words of the classes of a text and of the fields of each, or why it is no program.
pub(crate) fn symbols(alloc: Global, config: &Config, text: &str) -> Result<String, NoMemory>
    requires { IsInRange config.now }
{
    match program_of(alloc, config, text.as_bytes()) {
        Ok(program) => symbol_lines(alloc, &program.names),
        Err(refusal) => refusal_line(alloc, refusal),
    }
}

/// A line of the classes, and one of the fields of each that has words for them.
fn symbol_lines(alloc: Global, names: &Names) -> Result<String, NoMemory> {
    let mut lines = String::from_str(alloc, "classes")?;
    add_words(alloc, &mut lines, names.classes.as_slice())?;
    for fields in names.fields.as_slice() {
        lines.push_str("fields")?;
        add_words(alloc, &mut lines, fields.as_slice())?;
    }
    Ok(lines)
}

/// Adds words behind what a line has, and ends it.
fn add_words(alloc: Global, line: &mut String, words: &[Word]) -> Result<(), NoMemory> {
    for word in words {
        let word = String::from_utf8_lossy(alloc, word.as_slice())?;
        line.push(' ')?;
        line.push_str(word.as_str())?;
    }
    line.push('\n')?;
    Ok(())
}
