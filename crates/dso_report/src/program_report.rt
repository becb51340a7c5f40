//! The report of a program's run (`specs/Report.antt`).
ghost use Rattle.std.specs.Prelude.{IfOk};
ghost use Rattle.dso_class.specs.Sound.{IsSoundProgram};
ghost use Rattle.dso_plain.specs.HeapTables.{state_of};
ghost use Rattle.dso_report.specs.HistoryState.{IsLastStateOf};
ghost use Rattle.dso_report.specs.Report.{IsReport};

use crate::state_report::report_of_state;
use crate::unwritten::Unwritten;
use dso_base::NoMemory;
use dso_class::Program;
use dso_plain::Plain;
use std::alloc::Global;

/// The report of a program's run, from the one heap that its history leads to: for each thread how it stands and what it printed, the
/// count of unguarded reads, the roots, and the objects that are found from them, numbered breadth first.
///
/// The condition is that the program is sound and the heap is the last state of a legal history of it: then nothing is missing that
/// the report names. It takes time in the measure of the graph and of what was printed. `NoMemory` is answered where an allocation
/// was refused, and then there is no text.
pub fn report(alloc: Global, program: &Program, plain: &Plain) -> Result<Vec<u8>, NoMemory>
    requires sound { IsSoundProgram program.now }
    requires legal { IsLastStateOf program.now (state_of plain.now) }
    ensures { IfOk result (λ bytes. IsReport program.now.names program.now.threads (state_of plain.now) bytes.items) }
{
    match report_of_state(alloc, &program.names, program.threads.as_slice(), plain) {
        Ok(text) => Ok(text),
        Err(Unwritten::NoMemory(refusal)) => Err(refusal),
        Err(Unwritten::Missing) => unreachable!(),
    }
}
