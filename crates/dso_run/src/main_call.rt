//! The top call, and what each status means: `specs/Headline.antt`.
ghost use Rattle.std.specs.Prelude.{◌≡◌, ◌≢◌, ℕ, List, [], None, Some, map, IfErr, IfOk, IfSome, MatchOption, OnOk};
ghost use Rattle.std.specs.String.{string_bytes};
ghost use Rattle.dso_class.specs.Sound.{IsSoundProgram};
ghost use Rattle.dso_run.specs.Files.{AreAsBefore};
ghost use Rattle.dso_run.specs.Headline.{IsUsage, RoseOf, StatusMeans, left_by, making_of, read_by};
ghost use Rattle.dso_run.specs.RunEnds.{BySlots, ByThreads};
ghost use Rattle.dso_run.specs.Stores.{CallDisk, IsUntouched, IsUnwritten, disk_by, file_named};
ghost use Rattle.dso_run.specs.Verdict.{IsVerdictOn};
ghost use Rattle.dso_run.specs.Writing.{MeansFor};
ghost use Rattle.dso_command_line.specs.Said.{said};
ghost use Rattle.dso_command_line.specs.Words.{AreLawful, AreUnlawful, AskForThreads, AsksForRun, CanBeAsked, Show, ShowCall, journal_of, seed_of, store_of};
ghost use Rattle.dso_command_line.specs.Words as asked;

use crate::Done;
use crate::answers::{nothing_ran, out_of_memory, refuse};
use crate::asked::Asked;
use crate::judging::judge;
use crate::status::Refusal;
use crate::threads::Threading;
use crate::verdict::Verdict;
use dso_class::Program;
use dso_command_line::{Command, command_of};
use dso_host::Gate;
use dso_io::{Files, Sink};
use dso_keep::Disk;
use std::alloc::Global;
use std::sync::Wait;
use std::thread::Threads;

/// Does all that the program does: it reads the words and the files, runs the program and writes what is to be printed.
///
/// The words are those after the program's name. The order is: the words, reading the configuration, reading the
/// program, judging the configuration, judging the program, the store's file, where the words name one, the run, writing:
/// the journal to its file, where the words name one, and then what is told of the run. With `big` the texts of the
/// generated load stand for those that are read, and the line of the load for the report; with `show` the graph of the
/// store for it, and there is no run. Where `sim` is to collect garbage, a line behind the report tells how many objects the
/// run swept. Clause `answer` is the table of the statuses: what each means of the words, the files, the journal, the sink
/// and the disk. Each but `NoMemory` has its cause: other words; a count of failed reads
/// that rose, of one of the two files; the bytes that were read; a store's file, or the disk's count, which rose; the
/// journal of the run, of which all was written and nothing failed in writing; or, for `WriteFault`, the sink's count or
/// the files' count of writes, which rose. `NoMemory` is answered where an allocation was refused. So where no count rises
/// the words and the bytes that were read decide, or it is `NoMemory` (`laws::calls_are_complete`).
///
/// Where a store is named, its records are those that the server of the journal applied: at each moment a crash leaves
/// some of the first of them, and once the run ended all (`laws::stores_keep_records`).
///
/// It does what `without_threads` does, and where that answers None it makes the run in threads: then it may not return.
/// Each worker passes the gate before each of its turns.
pub fn dso_main<R: Threads + Wait + Sync, F: Files, K: Sink, G: Gate, D: Disk>(
    rt: &R,
    alloc: Global,
    words: &[String],
    files: &mut F,
    out: &mut K,
    gate: &G,
    disk: &mut D,
) -> Done
    ensures answer { StatusMeans
        (read_by F.content F.read_faults files.old files.new (map string_bytes words.now))
        (left_by F.content F.write_faults K.taken K.faults files.old files.new out.old out.new
        (disk_by D.faults D.found D.file disk.old disk.new) result.journal.entries)
        result.status }

    // Other words need no memory to be refused.
    ensures usage { AreUnlawful (map string_bytes words.now) → IsUsage result.status }

    // No file is changed but that for the journal.
    ensures unchanged { (name : List ℕ) → ((command : asked.Command) → AreLawful (map string_bytes words.now) command → journal_of command ≢ Some name)
        → F.content files.new name ≡ F.content files.old name }

    // No call of the disk is made where the words name no store, and `show` writes nothing.
    ensures untouched { ((command : asked.Command) → AreLawful (map string_bytes words.now) command → file_named command ≡ None) → disk.new ≡ disk.old }
    ensures unwritten { (call : ShowCall) → AreLawful (map string_bytes words.now) (Show call)
        → IsUnwritten call.store (disk_by D.faults D.found D.file disk.old disk.new) }
{
    match without_threads(alloc, words, files, out, disk) {
        Some(done) => done,
        None => in_threads(&Threading { rt, alloc, gate }, words, files, out),
    }
}

/// Does what `dso_main` does, but for a run in threads: None is answered exactly where the words lawfully ask for `run`,
/// and nothing is done then. It needs no runtime, and returns.
pub fn without_threads<F: Files, K: Sink, D: Disk>(
    alloc: Global,
    words: &[String],
    files: &mut F,
    out: &mut K,
    disk: &mut D,
) -> Option<Done>
    ensures answer { IfSome result (λ done. StatusMeans
        (read_by F.content F.read_faults files.old files.new (map string_bytes words.now))
        (left_by F.content F.write_faults K.taken K.faults files.old files.new out.old out.new
        (disk_by D.faults D.found D.file disk.old disk.new) done.journal.entries)
        done.status) }

    // Other words need no memory to be refused.
    ensures usage { AreUnlawful (map string_bytes words.now) → IfSome result (λ done. IsUsage done.status) }

    // No file is changed but that for the journal.
    ensures unchanged { (name : List ℕ) → ((command : asked.Command) → AreLawful (map string_bytes words.now) command → journal_of command ≢ Some name)
        → F.content files.new name ≡ F.content files.old name }

    // No call of the disk is made where the words name no store, and `show` writes nothing.
    ensures no_store { ((command : asked.Command) → AreLawful (map string_bytes words.now) command → file_named command ≡ None) → disk.new ≡ disk.old }
    ensures unwritten { (call : ShowCall) → AreLawful (map string_bytes words.now) (Show call)
        → IsUnwritten call.store (disk_by D.faults D.found D.file disk.old disk.new) }

    // None is answered exactly where the words lawfully ask for a run in threads; nothing is done then.
    ensures threads { MatchOption result (AskForThreads (map string_bytes words.now)) (λ done. AskForThreads (map string_bytes words.now) → ⊥) }
    ensures untouched { result ≡ None → (files.new ≡ files.old) × (out.new ≡ out.old) × (disk.new ≡ disk.old) }
{
    match command_of(words) {
        Some(Command::Run { .. }) => None,
        Some(command) => Some(carry_out(alloc, command, files, out, disk)),
        None => Some(nothing_ran(alloc, refuse(Refusal::Words, out))),
    }
}

/// Does what the words ask for, where that is no run in threads.
fn carry_out<F: Files, K: Sink, D: Disk>(
    alloc: Global,
    command: Command<'_>,
    files: &mut F,
    out: &mut K,
    disk: &mut D,
) -> Done
    requires asked { CanBeAsked (said command) }
    requires slots { making_of (said command) ≡ BySlots (seed_of (said command)) }
    ensures answer { (words : List (List ℕ)) → AreLawful words (said command.entry) → StatusMeans
        (read_by F.content F.read_faults files.old files.new words)
        (left_by F.content F.write_faults K.taken K.faults files.old files.new out.old out.new
        (disk_by D.faults D.found D.file disk.old disk.new) result.journal.entries)
        result.status }
    ensures unchanged { (name : List ℕ) → journal_of (said command.entry) ≢ Some name → F.content files.new name ≡ F.content files.old name }
    ensures no_store { file_named (said command.entry) ≡ None → disk.new ≡ disk.old }
    ensures unwritten { (call : ShowCall) → said command.entry ≡ Show call → IsUnwritten call.store (disk_by D.faults D.found D.file disk.old disk.new) }
{
    match accepted(alloc, command, files, out) {
        Ok(program) => {
            let asked = Asked {
                alloc,
                command,
                program: &program,
            };
            asked.carry_out(files, out, disk)
        }
        Err(done) => done,
    }
}

impl<'a> Asked<'a> {
    /// Does what is asked for with the program, where that is no run in threads.
    fn carry_out<F: Files, K: Sink, D: Disk>(
        &self,
        files: &mut F,
        out: &mut K,
        disk: &mut D,
    ) -> Done
        requires sound { IsSoundProgram self.now.program.now }
        requires asked { CanBeAsked (said self.now.command) }
        requires slots { making_of (said self.now.command) ≡ BySlots (seed_of (said self.now.command)) }
        ensures answer { MeansFor (said self.now.command) self.now.program.now (F.content files.old)
            (left_by F.content F.write_faults K.taken K.faults files.old files.new out.old out.new
            (disk_by D.faults D.found D.file disk.old disk.new) result.journal.entries) result.status }
        ensures unchanged { (name : List ℕ) → journal_of (said self.now.command) ≢ Some name → F.content files.new name ≡ F.content files.old name }
        ensures no_store { file_named (said self.now.command) ≡ None → disk.new ≡ disk.old }
        ensures unwritten { (call : ShowCall) → said self.now.command ≡ Show call → IsUnwritten call.store (disk_by D.faults D.found D.file disk.old disk.new) }
    {
        match self.command {
            Command::Show { store, .. } => self.show_store(store, out, disk),
            Command::Sim { .. } | Command::Run { .. } | Command::Big { .. } => {
                self.simulate(files, out, disk)
            }
            Command::Lint { .. } => self.check_locks(out),
        }
    }

    /// Makes the run by slots that is asked for, over a store where one is named.
    fn simulate<F: Files, K: Sink, D: Disk>(&self, files: &mut F, out: &mut K, disk: &mut D) -> Done
        requires sound { IsSoundProgram self.now.program.now }
        requires asked { CanBeAsked (said self.now.command) }
        requires runs { AsksForRun (said self.now.command) }
        requires slots { making_of (said self.now.command) ≡ BySlots (seed_of (said self.now.command)) }
        ensures answer { MeansFor (said self.now.command) self.now.program.now (F.content files.old)
            (left_by F.content F.write_faults K.taken K.faults files.old files.new out.old out.new
            (disk_by D.faults D.found D.file disk.old disk.new) result.journal.entries) result.status }
        ensures unchanged { (name : List ℕ) → journal_of (said self.now.command) ≢ Some name → F.content files.new name ≡ F.content files.old name }
        ensures no_store { store_of (said self.now.command) ≡ None → disk.new ≡ disk.old }
    {
        match self.command.store() {
            Some(store) => self.run_over_store(store, files, out, disk),
            None => self.run_by_slots(files, out),
        }
    }
}

/// Makes the run in threads that words ask for.
fn in_threads<R: Threads + Wait + Sync, F: Files, K: Sink, G: Gate>(
    threading: &Threading<'_, R, G>,
    words: &[String],
    files: &mut F,
    out: &mut K,
) -> Done
    requires { AskForThreads (map string_bytes words.now) }
    ensures answer { (disk : CallDisk) → IsUntouched disk → StatusMeans
        (read_by F.content F.read_faults files.old files.new (map string_bytes words.now))
        (left_by F.content F.write_faults K.taken K.faults files.old files.new out.old out.new disk result.journal.entries)
        result.status }
    ensures unchanged { (name : List ℕ) → ((command : asked.Command) → AreLawful (map string_bytes words.now) command → journal_of command ≢ Some name)
        → F.content files.new name ≡ F.content files.old name }
{
    let Some(command) = command_of(words) else {
        unreachable!()
    };
    carry_out_in_threads(threading, command, files, out)
}

/// Makes the run in threads that a command asks for.
fn carry_out_in_threads<R: Threads + Wait + Sync, F: Files, K: Sink, G: Gate>(
    threading: &Threading<'_, R, G>,
    command: Command<'_>,
    files: &mut F,
    out: &mut K,
) -> Done
    requires asked { CanBeAsked (said command) }
    requires threads { making_of (said command) ≡ ByThreads }
    ensures answer { (words : List (List ℕ)) → AreLawful words (said command.entry) → (disk : CallDisk) → IsUntouched disk → StatusMeans
        (read_by F.content F.read_faults files.old files.new words)
        (left_by F.content F.write_faults K.taken K.faults files.old files.new out.old out.new disk result.journal.entries)
        result.status }
    ensures unchanged { (name : List ℕ) → journal_of (said command.entry) ≢ Some name → F.content files.new name ≡ F.content files.old name }
{
    match accepted(threading.alloc, command, files, out) {
        Ok(program) => {
            let asked = Asked {
                alloc: threading.alloc,
                command,
                program: &program,
            };
            asked.run_by_threads(threading, files, out)
        }
        Err(done) => done,
    }
}

/// Judges what a command asks for: the program, where it is accepted. Else the line of the refusal is written, and the
/// call has its answer.
fn accepted<F: Files, K: Sink>(
    alloc: Global,
    command: Command<'_>,
    files: &mut F,
    out: &mut K,
) -> Result<Program, Done>
    requires { CanBeAsked (said command) }
    ensures verdict { IfOk result (λ program. IsVerdictOn (F.content files.old)
        (RoseOf (F.read_faults files.old) (F.read_faults files.new)) (said command.entry) (Verdict.Accepted program)) }
    ensures unchanged { AreAsBefore (F.content files.old) (F.content files.new) }
    ensures writes { F.write_faults files.new ≡ F.write_faults files.old }
    ensures unwritten { OnOk result (out.new ≡ out.old) }
    ensures refused { IfErr result (λ done. (words : List (List ℕ)) → AreLawful words (said command.entry) → (disk : CallDisk) → IsUntouched disk → StatusMeans
        (read_by F.content F.read_faults files.old files.new words)
        (left_by F.content F.write_faults K.taken K.faults files.old files.new out.old out.new disk done.journal.entries)
        done.status) }
{
    match judge(alloc, command, files) {
        Ok(Verdict::Refused(refusal)) => Err(nothing_ran(alloc, refuse(refusal, out))),
        Ok(Verdict::Accepted(program)) => Ok(program),
        Err(refused) => Err(out_of_memory(alloc, refused)),
    }
}
