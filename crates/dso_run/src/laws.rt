//! Laws of the top call (`specs/Completeness.antt`, `specs/Finished.antt`, `specs/StoreLaws.antt`,
//! `specs/LintLaw.antt`). Each is the contract of a function that does nothing.
ghost use Rattle.dso_run.specs.Completeness.{Completeness, MayRunRuns, TakenIsNotRefused};
ghost use Rattle.dso_run.specs.Finished.{FinishedMeans};
ghost use Rattle.dso_run.specs.LintLaw.{YesMeansGuarded};
ghost use Rattle.dso_run.specs.StoreLaws.{RecordsAreKept};

pub use dso_command_line::words_ask_once;
pub use dso_kept::keep_laws::{acknowledged_are_applied, applied_records_fit};
use dso_lint_law::yes_is_guarded;

/// What exit 0 means, in one place: the words, the bytes of both files, the lawful journal, the legal history that it
/// commits, each thread's events, the report, and what the sink took.
pub fn finished_means()
    ensures { FinishedMeans }
{}

/// Where no count of faults rises, the status is Usage with unlawful words, BadConfig or BadProgram with bytes that were
/// read and fail, that of a run that ended, or `NoMemory`: no other has its cause then.
pub fn calls_are_complete()
    ensures { Completeness }
{}

/// Texts that are taken as a program are not refused, so the bytes that were read decide for one thing.
pub fn taken_is_not_refused()
    ensures { TakenIsNotRefused }
{}

/// Where the words ask for a run, its files give only texts that are taken, and no count of faults rises, the status is
/// that of a run that ended, or `NoMemory`.
pub fn calls_that_may_run_do()
    ensures { MayRunRuns }
{}

/// Where the words name a store for a run, its file had at most one byte, and memory didn't run out: nothing was done to
/// the disk and nothing ran, or a program was accepted, and since the store's file was taken a crash at any moment leaves
/// some of the first records that the server of the journal applied; after the status of a run that ended, or `WriteFault`
/// where the disk didn't fail, reopening the file gives all of them.
pub fn stores_keep_records()
    ensures { RecordsAreKept }
{}

/// Where the status is LintYes, a program was accepted, and no legal history of it, whatever its schedule and its losses, has
/// a reply UnlockedSharedObject, WrongLock, ReadOnly or LockUpgrade, or an unguarded read. So has each run of it, by the
/// headline.
pub fn lint_yes_is_guarded()
    ensures { YesMeansGuarded }
{
    yes_is_guarded();
}
