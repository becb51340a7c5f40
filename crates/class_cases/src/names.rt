//! What the names of a text answer.

ghost use Rattle.std.specs.Prelude.{IfOk};
ghost use Rattle.dso_class.specs.Sound.{IsSoundProgram};
ghost use Rattle.dso_config.specs.InRange.{IsInRange};

use case_words::unescaped;
use dso_base::NoMemory;
use dso_class::laws::one_answer;
use dso_class::{NameFault, Program, resolve};
use dso_config::Config;
use dso_syntax::{SyntaxFault, parse};
use std::alloc::Global;

/// Why a text is no program.
#[derive(Clone, Copy, Debug)]
pub(crate) enum Refusal {
    Syntax(SyntaxFault),
    Names(NameFault),
}

impl From<SyntaxFault> for Refusal {
    fn from(fault: SyntaxFault) -> Refusal {
        Refusal::Syntax(fault)
    }
}

impl From<NameFault> for Refusal {
    fn from(fault: NameFault) -> Refusal {
        Refusal::Names(fault)
    }
}

/// The program of a text.
#[tactic(auto, using(crate::proofs::TextInput::valid_input))]
pub(crate) fn program_of(alloc: Global, config: &Config, text: &[u8]) -> Result<Program, Refusal>
    requires { IsInRange config.now }
    ensures { IfOk result IsSoundProgram }
{
    let tree = parse(alloc, text)?;
    Ok(resolve(alloc, &tree, config)?)
}

/// What the names of a text answer: that it is a program, or the fault and its line.
pub(crate) fn answer(alloc: Global, config: &Config, written: &str) -> Result<String, NoMemory>
    requires { IsInRange config.now }
{
    let text = unescaped(alloc, written)?;
    match program_of(alloc, config, text.as_slice()) {
        Ok(_) => Ok(String::from_str(alloc, "a program\n")?),
        Err(Refusal::Names(NameFault::At { kind, line })) => {
            Ok(format!(in alloc; "{kind:?} on line {line}\n")?)
        }
        Err(refusal) => refusal_line(alloc, refusal),
    }
}

/// Why a text is no program, in words; where an allocation was refused there are none.
pub(crate) fn refusal_line(alloc: Global, refusal: Refusal) -> Result<String, NoMemory> {
    match refusal {
        Refusal::Syntax(SyntaxFault::NoMemory(refused)) => Err(refused),
        Refusal::Names(NameFault::NoMemory(refused)) => Err(refused),
        _ => Ok(format!(in alloc; "{refusal:?}\n")?),
    }
}

/// The laws of the names are a call that does nothing.
pub(crate) fn laws(alloc: Global) -> Result<String, NoMemory> {
    one_answer();
    Ok(String::from_str(alloc, "a text has one answer\n")?)
}
