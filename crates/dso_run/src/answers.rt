//! The answers of a call, and what is written for them (`specs/Writing.antt`).
ghost use Rattle.std.specs.Prelude.{◌≡◌, []};
ghost use Rattle.dso_run.specs.Status.{HasLine, line_of, status_of, status_of_run};
ghost use Rattle.dso_run.specs.Writing.{Wrote};

use crate::refusal_lines::line_of;
use crate::running::{Outcome, Run};
use crate::status::Refusal;
use crate::{Done, Status};
use dso_base::{Items, Journal, NoMemory};
use dso_io::{Sink, write_text};
use std::alloc::Global;

/// Writes a text. The answer is this status, or WriteFault where the sink failed. It takes no memory.
pub(crate) fn write_or_fail<K: Sink>(text: &[u8], status: Status, out: &mut K) -> Status
    ensures { Wrote (K.taken out.old) (K.taken out.new) (K.faults out.old) (K.faults out.new) text.now status result }
{
    match write_text(out, text) {
        Ok(()) => status,
        Err(_) => Status::WriteFault,
    }
}

/// Writes the line of a refusal. It takes no memory.
pub(crate) fn refuse<K: Sink>(refusal: Refusal, out: &mut K) -> Status
    requires { HasLine refusal }
    ensures { Wrote (K.taken out.old) (K.taken out.new) (K.faults out.old) (K.faults out.new) (line_of refusal) (status_of refusal) result }
{
    let line = line_of(refusal);
    write_or_fail(line.as_str().as_bytes(), refusal.status(), out)
}

/// An answer with the journal of a run.
pub(crate) fn ended(run: Run, status: Status) -> Done
    ensures status { result.status ≡ status }
    ensures journal { result.journal.entries ≡ run.journal.entries }
{
    Done {
        status,
        journal: run.journal,
    }
}

/// The status of a run of which all was written.
pub(crate) fn status_of_run(outcome: Outcome) -> Status
    ensures { result ≡ status_of_run outcome }
{
    match outcome {
        Outcome::Finished => Status::Finished,
        Outcome::FinishedFault => Status::FinishedFault,
        Outcome::Stuck => Status::Stuck,
        Outcome::Budget => Status::Budget,
    }
}

/// An answer with an empty journal.
pub(crate) fn nothing_ran(alloc: Global, status: Status) -> Done
    ensures status { result.status ≡ status }
    ensures empty { result.journal.entries ≡ [] }
{
    Done {
        status,
        journal: Journal {
            entries: Items::new(alloc),
        },
    }
}

/// The answer where an allocation was refused.
pub(crate) fn out_of_memory(alloc: Global, _refused: NoMemory) -> Done
    ensures status { result.status ≡ Status.NoMemory }
    ensures empty { result.journal.entries ≡ [] }
{
    nothing_ran(alloc, Status::NoMemory)
}
