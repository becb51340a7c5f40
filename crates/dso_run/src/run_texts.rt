//! What is told of a run: its report, behind it maybe the line of its collections, or the line of a load
//! (`specs/Headline.antt`, `specs/Swept.antt`).
ghost use Rattle.std.specs.Prelude.{◌≡◌, ◌++◌, IfOk, reverse};
ghost use Rattle.dso_class.specs.Sound.{IsSoundProgram};
ghost use Rattle.dso_legal.specs.Central.{CommitsLegally};
ghost use Rattle.dso_machine.specs.Next.{next_request};
ghost use Rattle.dso_run.specs.Accepted.{settings_of};
ghost use Rattle.dso_run.specs.Headline.{IsRunText};
ghost use Rattle.dso_run.specs.Swept.{CountsSwept, swept_line};
ghost use Rattle.dso_command_line.specs.Said.{said};
ghost use Rattle.dso_command_line.specs.Words.{AsksForRun, CanBeAsked, collect_of};

use crate::replay::heap_after;
use crate::running::Run;
use dso_base::NoMemory;
use dso_class::Program;
use dso_command_line::Command;
use dso_gen::big_line;
use dso_report::{counter_total, report};
use std::alloc::Global;

/// What is told of the history that a run's journal commits, and of its collections, where the command asks for such. The
/// history is played on one heap, and of the state where it ends the report is told, or with `big` what the counters come
/// to.
pub(crate) fn run_text(
    alloc: Global,
    program: &Program,
    run: &Run,
    command: Command<'_>,
) -> Result<Vec<u8>, NoMemory>
    requires asked { CanBeAsked (said command) }
    requires runs { AsksForRun (said command) }
    requires sound { IsSoundProgram program.now }
    requires legal { CommitsLegally (settings_of program.now) (next_request program.now.code) (reverse run.now.journal.entries) }
    requires swept { CountsSwept program.now (collect_of (said command)) run.now.journal.entries run.now.swept }
    ensures { IfOk result (λ text. IsRunText (said command.entry) program.now run.now.journal.entries text.items) }
{
    let plain = heap_after(alloc, &program.code.shape, &run.journal)?;
    match command {
        Command::Sim { collect, .. } => {
            let text = report(alloc, program, &plain)?;
            match collect {
                Some(_) => with_swept(alloc, text, run.swept),
                None => Ok(text),
            }
        }
        Command::Run { .. } => report(alloc, program, &plain),
        Command::Big { number } => {
            let total = counter_total(alloc, program, &plain)?;
            big_line(alloc, number, total)
        }
        Command::Show { .. } | Command::Lint { .. } => unreachable!(),
    }
}

/// A text with the line of how many objects were swept behind it.
fn with_swept(alloc: Global, text: Vec<u8>, swept: u64) -> Result<Vec<u8>, NoMemory>
    ensures { IfOk result (λ told. told.items ≡ text.items ++ swept_line swept) }
{
    let line = format!(in alloc; "swept {swept}\n")?;
    let mut told = text;
    told.extend_from_slice(line.as_bytes())?;
    Ok(told)
}
