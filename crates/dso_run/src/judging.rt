//! What a command's run goes by: the files or the generated load, and the judgement of them (`specs/Headline.antt`).
ghost use Rattle.std.specs.Prelude.{◌≡◌, ◌⊎◌, IfOk};
ghost use Rattle.dso_run.specs.Files.{AreAsBefore};
ghost use Rattle.dso_run.specs.Headline.{FilesGive, LoadGives, RoseOf};
ghost use Rattle.dso_run.specs.Verdict.{IsVerdictBy, IsVerdictOn};
ghost use Rattle.dso_command_line.specs.Said.{said};
ghost use Rattle.dso_command_line.specs.Words.{CanBeAsked};

use crate::status::Refusal;
use crate::verdict::{Verdict, judge_texts};
use dso_base::NoMemory;
use dso_command_line::Command;
use dso_gen::generate;
use dso_io::{FileFault, Files};
use std::alloc::Global;

/// The most bytes that are read of a file: one more than a text may have.
const MOST_READ: u64 = 1_048_577;

/// Reads the files that a command names, or makes the load that it asks for, and judges the configuration and under it
/// the program.
pub(crate) fn judge<F: Files>(
    alloc: Global,
    command: Command<'_>,
    files: &mut F,
) -> Result<Verdict, NoMemory>
    requires { CanBeAsked (said command) }
    ensures verdict { IfOk result (IsVerdictOn (F.content files.old) (RoseOf (F.read_faults files.old) (F.read_faults files.new)) (said command.entry)) }
    ensures unchanged { AreAsBefore (F.content files.old) (F.content files.new) }
    ensures writes { F.write_faults files.new ≡ F.write_faults files.old }
{
    match command {
        Command::Sim {
            config,
            program,
            ..
        } => judge_files(alloc, config, program, files),
        Command::Run {
            config,
            program,
            ..
        } => judge_files(alloc, config, program, files),
        Command::Show {
            config,
            program,
            ..
        } => judge_files(alloc, config, program, files),
        Command::Lint { config, program } => judge_files(alloc, config, program, files),
        Command::Big { number } => judge_load(alloc, number),
    }
}

/// Reads the files of these names, and judges the configuration and under it the program.
fn judge_files<F: Files>(
    alloc: Global,
    config: &str,
    program: &str,
    files: &mut F,
) -> Result<Verdict, NoMemory>
    ensures verdict { IfOk result (IsVerdictBy (FilesGive (F.content files.old) config.now program.now)
        (RoseOf (F.read_faults files.old) (F.read_faults files.new) config.now ⊎ RoseOf (F.read_faults files.old) (F.read_faults files.new) program.now)) }
    ensures unchanged { AreAsBefore (F.content files.old) (F.content files.new) }
    ensures writes { F.write_faults files.new ≡ F.write_faults files.old }
{
    let config = match files.read(alloc, config, MOST_READ) {
        Ok(bytes) => bytes,
        Err(fault) => return unread(fault),
    };
    let program = match files.read(alloc, program, MOST_READ) {
        Ok(bytes) => bytes,
        Err(fault) => return unread(fault),
    };
    judge_texts(alloc, config.as_slice(), program.as_slice())
}

/// What a file that was not read comes to.
fn unread(fault: FileFault) -> Result<Verdict, NoMemory>
    ensures { IfOk result (λ verdict. (verdict ≡ Verdict.Refused Refusal.Reading) × (fault ≡ FileFault.Failed)) }
{
    match fault {
        FileFault::Failed => Ok(Verdict::Refused(Refusal::Reading)),
        FileFault::NoMemory(refused) => Err(refused),
    }
}

/// Makes the load of this number, and judges its configuration and under it its program.
fn judge_load(alloc: Global, number: u32) -> Result<Verdict, NoMemory>
    ensures { IfOk result (IsVerdictBy (LoadGives number) ⊥) }
{
    let (config_text, program_text) = generate(alloc, number)?;
    judge_texts(alloc, config_text.as_slice(), program_text.as_slice())
}
