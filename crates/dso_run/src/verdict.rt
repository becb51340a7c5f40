//! The judgement of a configuration's text and of a program's (`specs/Verdict.antt`).
ghost use Rattle.std.specs.Prelude.{◌≡◌, IfOk};
ghost use Rattle.dso_config.specs.InRange.{IsInRange};
ghost use Rattle.dso_syntax.specs.Grammar.{Tokens};
ghost use Rattle.dso_syntax.specs.TextLimits.{most_levels};
ghost use Rattle.dso_syntax.specs.ProgramGrammar.{IsProgram};
ghost use Rattle.dso_run.specs.declared.status.Refusal.TheVariants as refusal;
ghost use Rattle.dso_run.specs.Verdict.{IsVerdictOnProgram, IsVerdictOnTexts, IsVerdictOnTree};

use crate::ProgramFault;
use crate::status::Refusal;
use dso_base::NoMemory;
use dso_class::{NameFault, Program, resolve};
use dso_config::{Config, ConfigFault, read_config};
use dso_syntax::{Ast, SyntaxFault, parse};
use std::alloc::Global;

/// The verdict on the words and the files: why nothing is run, or the program that is accepted.
#[derive(Drop)]
pub(crate) enum Verdict {
    Refused(Refusal),
    Accepted(Program),
}

/// Judges the bytes of a configuration, and under it those of a program.
pub(crate) fn judge_texts(alloc: Global, config: &[u8], program: &[u8]) -> Result<Verdict, NoMemory>
    ensures { IfOk result (IsVerdictOnTexts config.now program.now) }
{
    match read_config(alloc, config) {
        Ok(config) => judge_program(alloc, &config, program),
        Err(ConfigFault::NoMemory(refused)) => Err(refused),
        Err(fault) => Ok(Verdict::Refused(Refusal::Config(fault))),
    }
}

/// Judges the bytes of a program: by the grammar, and by its names under the configuration.
fn judge_program(alloc: Global, config: &Config, text: &[u8]) -> Result<Verdict, NoMemory>
    requires { IsInRange config.now }
    ensures { IfOk result (IsVerdictOnProgram config.now text.now) }
{
    match parse(alloc, text) {
        Ok(tree) => judge_tree(alloc, config, &tree),
        Err(SyntaxFault::NoMemory(refused)) => Err(refused),
        Err(fault) => Ok(refused(ProgramFault::Syntax(fault))),
    }
}

/// Judges the tree of a program by its names under the configuration.
fn judge_tree(alloc: Global, config: &Config, tree: &Ast) -> Result<Verdict, NoMemory>
    requires in_range { IsInRange config.now }
    requires program { (tokens : Tokens) × IsProgram most_levels tokens tree.now }
    ensures { IfOk result (IsVerdictOnTree config.now tree.now) }
{
    match resolve(alloc, tree, config) {
        Ok(program) => Ok(Verdict::Accepted(program)),
        Err(NameFault::NoMemory(refused)) => Err(refused),
        Err(NameFault::At { kind, line }) => {
            Ok(refused(ProgramFault::Name(NameFault::At { kind, line })))
        }
    }
}

/// A program that is refused.
fn refused(fault: ProgramFault) -> Verdict
    ensures { result ≡ Verdict.Refused (refusal.Program fault) }
{
    Verdict::Refused(Refusal::Program(fault))
}
