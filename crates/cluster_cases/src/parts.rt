//! The parts of the input: a program, one of its clients, and rows.
ghost use Rattle.dso_class.specs.Sound.{IsSoundProgram};

use crate::driven::Driven;
use crate::rows::row_told;
use case_programs::Case;
use case_words::{first_of, shown, small};
use dso_base::NoMemory;
use dso_class::Program;
use std::alloc::Global;

/// A part of the input.
#[derive(Clone, Copy)]
struct Part<'a> {
    case: Case<'a>,
    number: u8,
    rows: &'a str,
}

/// What the first line says behind this word, and the lines behind it.
fn line_of<'a>(text: &'a str, word: &str) -> Option<(&'a str, &'a str)> {
    let (line, rest) = text.split_once('\n')?;
    let (first, said) = first_of(line);
    if first == word {
        Some((said, rest))
    } else {
        None
    }
}

/// The part of a text.
fn part_of(text: &str) -> Option<Part<'_>> {
    let (program, rest) = line_of(text, "program")?;
    let (config, rest) = line_of(rest, "config")?;
    let (number, rows) = line_of(rest, "client")?;
    Some(Part {
        case: Case { config, program },
        number: small(number)?,
        rows,
    })
}

/// What is printed for a part.
pub fn told(alloc: Global, text: &str) -> Result<String, NoMemory> {
    match part_of(text) {
        Some(part) => part_told(alloc, part),
        None => shown(alloc, "no part\n"),
    }
}

/// What is printed for a part whose lines are there.
fn part_told(alloc: Global, part: Part<'_>) -> Result<String, NoMemory> {
    match part.case.program(alloc)? {
        Some(program) => rows_told(alloc, &program, part),
        None => shown(alloc, "refused\n"),
    }
}

/// What is printed for the rows of a part, whose program this is.
fn rows_told(alloc: Global, program: &Program, part: Part<'_>) -> Result<String, NoMemory>
    requires { IsSoundProgram program.now }
{
    let mut driven = Driven::new(alloc, program, part.number)?;
    let mut text = format!(in alloc; "client {}\n", part.number)?;
    for row in part.rows.lines() {
        let answer = row_told(alloc, &program.code, &mut driven, row)?;
        text.push_str(answer.as_str())?;
    }
    Ok(text)
}
