//! The status that the process ends with (`specs/Exit.antt`).
ghost use Rattle.std.specs.Prelude.{◌≡◌, ◌≢◌, IfErr, map};
ghost use Rattle.std.specs.String.{string_bytes};
ghost use Rattle.std.specs.IoError.{error_kind};
ghost use Rattle.std.specs.declared.io.ErrorKind.TheVariants.{OutOfMemory};
ghost use Rattle.std.specs.Process.{exit_status};
ghost use Rattle.dso_run.specs.Exit.{EndsWith, IsUsageNumber, words_told};
ghost use Rattle.dso_run.specs.Headline.{left_by, read_by};
ghost use Rattle.dso_run.specs.Status.{exit_number_of};
ghost use Rattle.dso_run.specs.Stores.{disk_by};

use crate::{Done, Status, dso_main};
use dso_host::Gate;
use dso_io::{Files, Sink};
use dso_keep::Disk;
use std::alloc::Global;
use std::io;
use std::mem::ManuallyDrop;
use std::process::ExitCode;
use std::sync::Wait;
use std::thread::Threads;

/// Does all that the process does, and answers what it is to end with: the number of the status of the call.
///
/// The words are those behind the program's name, or why they couldn't be told. Where that was want of memory, nothing is
/// done, and the number is that of `NoMemory`. Else a word isn't text, and so none of a lawful list: there are no words
/// then, which is `Usage`.
pub fn dso_exit<R: Threads + Wait + Sync, F: Files, K: Sink, G: Gate, D: Disk>(
    rt: &R,
    alloc: Global,
    words: io::Result<Vec<String>>,
    files: &mut F,
    out: &mut K,
    gate: &G,
    disk: &mut D,
) -> ExitCode
    ensures ends { EndsWith (read_by F.content F.read_faults files.old files.new (words_told (λ texts. map string_bytes texts.items) words))
        (left_by F.content F.write_faults K.taken K.faults files.old files.new out.old out.new
        (disk_by D.faults D.found D.file disk.old disk.new))
        result }

    // Words that are no text are answered as other words are.
    ensures usage { IfErr words (λ error. error_kind error ≢ OutOfMemory → IsUsageNumber (exit_status result)) }
{
    let words = match words {
        Ok(words) => words,
        Err(error) if matches!(error.kind(), io::ErrorKind::OutOfMemory) => {
            return ExitCode::from(Status::NoMemory.exit_number());
        }
        Err(_) => Vec::new(alloc),
    };
    let done = dso_main(rt, alloc, words.as_slice(), files, out, gate, disk);
    end_with(done)
}

/// What the process ends with. The journal isn't taken apart first: its memory goes back with the process, all at once.
fn end_with(done: Done) -> ExitCode
    ensures { exit_status result ≡ exit_number_of done.status }
{
    let Done { status, journal } = done;
    let _kept = ManuallyDrop::new(journal);
    ExitCode::from(status.exit_number())
}
