//! The file of a run's journal (`specs/Files.antt`).
ghost use Rattle.std.specs.Prelude.{◌≡◌, ℕ, List, Some, OnOk, OnErr, IsErrOf};
ghost use Rattle.dso_io.specs.Environment.{Rose};
ghost use Rattle.dso_report.specs.JournalText.{journal_text};
ghost use Rattle.dso_run.specs.Files.{AreAsBefore, IsWritten};
ghost use Rattle.dso_command_line.specs.Given.{told};

use dso_base::Journal;
use dso_io::{FileFault, Files};
use dso_report::journal_text;
use std::alloc::Global;

/// Writes the text of a journal to the file of this name, in the place of what the file holds; where no name is given,
/// nothing.
///
/// `Failed` is answered where the file couldn't be written, and the files counted it; `NoMemory` where an allocation
/// was refused. No file is changed then.
pub(crate) fn keep_journal<F: Files>(
    alloc: Global,
    name: Option<&str>,
    journal: &Journal,
    files: &mut F,
) -> Result<(), FileFault>
    ensures written { OnOk result (IsWritten (told name.entry) (journal_text journal.now) (F.content files.old) (F.content files.new)) }
    ensures unchanged { OnErr result (AreAsBefore (F.content files.old) (F.content files.new)) }
    ensures named { IsErrOf result FileFault.Failed → (file : List ℕ) × (told name.entry ≡ Some file) }
    ensures failed { IsErrOf result FileFault.Failed → Rose (F.write_faults files.old) (F.write_faults files.new) }
    ensures sound { OnOk result (F.write_faults files.new ≡ F.write_faults files.old) }
    ensures reads { (name : List ℕ) → F.read_faults files.new name ≡ F.read_faults files.old name }
{
    match name {
        Some(name) => write_journal(alloc, name, journal, files),
        None => Ok(()),
    }
}

/// Writes the text of a journal to the file of this name.
fn write_journal<F: Files>(
    alloc: Global,
    name: &str,
    journal: &Journal,
    files: &mut F,
) -> Result<(), FileFault>
    ensures written { OnOk result (IsWritten (Some name.now) (journal_text journal.now) (F.content files.old) (F.content files.new)) }
    ensures unchanged { OnErr result (AreAsBefore (F.content files.old) (F.content files.new)) }
    ensures failed { IsErrOf result FileFault.Failed → Rose (F.write_faults files.old) (F.write_faults files.new) }
    ensures sound { OnOk result (F.write_faults files.new ≡ F.write_faults files.old) }
    ensures reads { (name : List ℕ) → F.read_faults files.new name ≡ F.read_faults files.old name }
{
    let text = journal_text(alloc, journal)?;
    files.write(alloc, name, text.as_slice())
}
