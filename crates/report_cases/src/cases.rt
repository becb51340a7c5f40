//! The cases of the input, line by line.
ghost use Rattle.std.specs.Prelude.{◌≡◌, IfOk, length};
ghost use Rattle.dso_class.specs.Sound.{IsSoundProgram};
ghost use Rattle.dso_config.specs.InRange.{IsInRange};
ghost use Rattle.report_cases.specs.LegalRun.{IsLegalRun};

use crate::legal_run::LegalRun;
use crate::script::play;
use dso_base::{Grade, Items, NoMemory};
use dso_class::{NameFault, Program, resolve};
use dso_config::{AutoEntry, Config, Pattern};
use dso_report::report;
use dso_syntax::{SyntaxFault, parse};
use std::alloc::{AllocError, Global};

/// The clients that a case may have threads of.
const CLIENTS: u8 = 16;

/// The case that is being read: the lines of its program so far.
#[derive(Drop)]
pub(crate) struct Cases {
    program: String,
}

/// Why a case has no report.
#[derive(Clone, Copy, Debug)]
pub(crate) enum Unreported {
    /// The text is none of the grammar.
    Syntax,
    /// A name breaks a rule.
    Names,
    /// What is to be done isn't read, or isn't possible.
    Script,
    /// An allocation was refused.
    NoMemory(NoMemory),
}

impl From<AllocError> for Unreported {
    fn from(refused: AllocError) -> Self {
        Unreported::NoMemory(NoMemory::from(refused))
    }
}

impl From<NoMemory> for Unreported {
    fn from(refusal: NoMemory) -> Self {
        Unreported::NoMemory(refusal)
    }
}

impl From<SyntaxFault> for Unreported {
    fn from(fault: SyntaxFault) -> Self {
        match fault {
            SyntaxFault::NoMemory(refusal) => Unreported::NoMemory(refusal),
            _ => Unreported::Syntax,
        }
    }
}

impl From<NameFault> for Unreported {
    fn from(fault: NameFault) -> Self {
        match fault {
            NameFault::NoMemory(refusal) => Unreported::NoMemory(refusal),
            NameFault::At { .. } => Unreported::Names,
        }
    }
}

impl Cases {
    /// No case is begun.
    pub(crate) fn new(alloc: Global) -> Cases {
        Cases {
            program: String::new(alloc),
        }
    }

    /// Takes a line of the input, and answers what is printed for it.
    pub(crate) fn take(&mut self, alloc: Global, line: &str) -> Result<String, AllocError> {
        if let Some(sentence) = line.strip_prefix("# ") {
            self.program = String::new(alloc);
            return format!(in alloc; "# {sentence}\n");
        }
        if let Some(script) = line.strip_prefix("> ") {
            return answer(alloc, self.program.as_str(), script);
        }
        self.program.push_str(line)?;
        self.program.push_str("\n")?;
        Ok(String::new(alloc))
    }
}

/// The report of a case, or why it has none.
fn answer(alloc: Global, text: &str, script: &str) -> Result<String, AllocError> {
    match reported(alloc, text, script) {
        Ok(report) => Ok(report),
        Err(Unreported::NoMemory(_)) => Err(AllocError),
        Err(refused) => format!(in alloc; "no report: {refused:?}\n"),
    }
}

/// The report of the program of a text, after what the script tells.
fn reported(alloc: Global, text: &str, script: &str) -> Result<String, Unreported> {
    let program = program_of(alloc, text)?;
    let mut run = LegalRun::new(alloc, &program)?;
    play(alloc, &program, &mut run, script)?;
    let bytes = report_of(alloc, &program, &run)?;
    String::from_utf8(bytes).map_err(|_| Unreported::Script)
}

/// The report of the heap that a history of the program leads to.
fn report_of(alloc: Global, program: &Program, run: &LegalRun) -> Result<Vec<u8>, NoMemory>
    requires sound { IsSoundProgram program.now }
    requires legal { IsLegalRun program.now run.now }
{
    report(alloc, program, &run.plain)
}

/// The program of a text.
#[tactic(auto, using(crate::proofs::TextInput::valid_input))]
fn program_of(alloc: Global, text: &str) -> Result<Program, Unreported>
    ensures { IfOk result IsSoundProgram }
{
    let tree = parse(alloc, text.as_bytes())?;
    let config = config(alloc)?;
    Ok(resolve(alloc, &tree, &config)?)
}

/// The configuration of all cases: clients 1 to 16, methods lock at write, and those of the class `Reader` at read.
fn config(alloc: Global) -> Result<Config, AllocError>
    ensures { IfOk result IsInRange }
{
    let autolocks = autolocks(alloc)?;
    Ok(Config {
        clients: CLIENTS,
        autolocks: Some(autolocks),
        ..Config::empty(alloc)
    })
}

/// All methods at write, and those of the class `Reader` at read.
fn autolocks(alloc: Global) -> Result<Items<AutoEntry>, AllocError>
    ensures { IfOk result (λ entries. length entries ≡ 2) }
{
    let reader = Items::from_vec(Vec::from_slice(alloc, b"Reader")?);
    let mut entries = Items::new(alloc);
    entries.push(AutoEntry {
        method: Pattern::All,
        grade: Grade::Write,
    })?;
    entries.push(AutoEntry {
        method: Pattern::Class(reader),
        grade: Grade::Read,
    })?;
    Ok(entries)
}
