//! A row: a sentence and steps.
ghost use Rattle.std.specs.Prelude.{OnOk};
ghost use Rattle.dso_machine.specs.Sound.{IsSoundCode};
ghost use Rattle.cluster_cases.specs.Driving.{Goes};

use crate::driven::Driven;
use crate::messages::message;
use crate::queries::answered;
use case_words::{first_of, shown, small};
use dso_base::NoMemory;
use dso_machine::Code;
use std::alloc::Global;

/// What is printed for a row: the sentence, and a line for each step.
pub fn row_told(
    alloc: Global,
    code: &Code,
    driven: &mut Driven,
    row: &str,
) -> Result<String, NoMemory>
    requires sound { IsSoundCode code.now }
    requires goes { Goes code.now driven.old }
    ensures { OnOk result (Goes code.now driven.new) }
{
    let (name, steps) = row.split_once(": ").unwrap_or((row, ""));
    let mut text = format!(in alloc; "{name}\n")?;
    for step in steps.split(", ") {
        let line = step_told(alloc, code, driven, step)?;
        text.push_str("  ")?;
        text.push_str(line.as_str())?;
    }
    Ok(text)
}

/// The line of a step.
fn step_told(
    alloc: Global,
    code: &Code,
    driven: &mut Driven,
    step: &str,
) -> Result<String, NoMemory>
    requires sound { IsSoundCode code.now }
    requires goes { Goes code.now driven.old }
    ensures { OnOk result (Goes code.now driven.new) }
{
    let (word, rest) = first_of(step);
    match word {
        "act" => driven.act(alloc, code, small(rest).unwrap_or(0)),
        "take" | "offer" => heard(alloc, code, driven, word, rest),
        "flush" => driven.flush(alloc),
        _ => answered(alloc, driven, word, rest),
    }
}

/// The line of a message that comes.
fn heard(
    alloc: Global,
    code: &Code,
    driven: &mut Driven,
    word: &str,
    text: &str,
) -> Result<String, NoMemory>
    requires { Goes code.now driven.old }
    ensures { OnOk result (Goes code.now driven.new) }
{
    match message(alloc, text)? {
        Some(message) if word == "take" => driven.take(alloc, code, message),
        Some(message) => driven.offer(alloc, code, message),
        None => shown(alloc, "no message\n"),
    }
}
