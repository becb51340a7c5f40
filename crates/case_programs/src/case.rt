//! What is run: the texts of a configuration and of a program.
ghost use Rattle.std.specs.Prelude.{IfOk, IfSome};
ghost use Rattle.dso_class.specs.Sound.{IsSoundProgram};
ghost use Rattle.dso_class.specs.ValidInput.{IsValidInput};
ghost use Rattle.dso_config.specs.InRange.{IsInRange};

use case_words::unescaped;
use dso_base::NoMemory;
use dso_class::{NameFault, Program, resolve};
use dso_config::{Config, ConfigFault, read_config};
use dso_syntax::{Ast, SyntaxFault, parse};
use std::alloc::Global;

/// The two texts, as they are written in a row.
#[derive(Clone, Copy)]
pub struct Case<'a> {
    pub config: &'a str,
    pub program: &'a str,
}

impl<'a> Case<'a> {
    /// This program under an empty configuration.
    pub fn of_program(program: &'a str) -> Case<'a> {
        Case {
            config: "",
            program,
        }
    }

    /// The same program under this configuration.
    pub fn under(self, config: &'a str) -> Case<'a> {
        Case { config, ..self }
    }

    /// The program that the texts are; None where they are refused.
    pub fn program(self, alloc: Global) -> Result<Option<Program>, NoMemory>
        ensures { IfOk result (λ answer. IfSome answer IsSoundProgram) }
    {
        let config = unescaped(alloc, self.config)?;
        let program = unescaped(alloc, self.program)?;
        match read_config(alloc, config.as_slice()) {
            Ok(config) => program_under(alloc, &config, program.as_slice()),
            Err(ConfigFault::NoMemory(refusal)) => Err(refusal),
            Err(_) => Ok(None),
        }
    }
}

/// The program of a text under a configuration; None where it is refused.
fn program_under(alloc: Global, config: &Config, text: &[u8]) -> Result<Option<Program>, NoMemory>
    requires { IsInRange config.now }
    ensures { IfOk result (λ answer. IfSome answer IsSoundProgram) }
{
    match parse(alloc, text) {
        Ok(tree) => program_of(alloc, config, &tree),
        Err(SyntaxFault::NoMemory(refusal)) => Err(refusal),
        Err(_) => Ok(None),
    }
}

/// The program of a tree under a configuration; None where it is refused.
fn program_of(alloc: Global, config: &Config, tree: &Ast) -> Result<Option<Program>, NoMemory>
    requires { IsValidInput config.now tree.now }
    ensures { IfOk result (λ answer. IfSome answer IsSoundProgram) }
{
    match resolve(alloc, tree, config) {
        Ok(program) => Ok(Some(program)),
        Err(NameFault::NoMemory(refusal)) => Err(refusal),
        Err(_) => Ok(None),
    }
}
