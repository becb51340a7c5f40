//! A program that is run, by what asks for it (`specs/Writing.antt`).
ghost use Rattle.std.specs.Prelude.{◌≡◌, ◌≢◌, ◌⊎◌, ℕ, List, Some};
ghost use Rattle.dso_class.specs.Sound.{IsSoundProgram};
ghost use Rattle.dso_run.specs.Headline.{left_by, making_of};
ghost use Rattle.dso_run.specs.RunEnds.{BySlots, ByThreads};
ghost use Rattle.dso_run.specs.Stores.{CallDisk};
ghost use Rattle.dso_run.specs.Writing.{IsRunFor, ToldRun};
ghost use Rattle.dso_command_line.specs.Said.{said};
ghost use Rattle.dso_command_line.specs.Words.{AsksForRun, CanBeAsked, collect_of, journal_of, seed_of, steps_of};

use crate::answers::{ended, out_of_memory, status_of_run, write_or_fail};
use crate::journal_file::keep_journal;
use crate::run_texts::run_text;
use crate::running::{Run, Schedule, run_program};
use crate::threads::Threading;
use crate::{Done, Status};
use dso_class::Program;
use dso_command_line::Command;
use dso_host::Gate;
use dso_io::{FileFault, Files, Sink};
use std::alloc::Global;
use std::sync::Wait;
use std::thread::Threads;

/// What is run: a program, by what asks for it.
#[derive(Drop)]
pub(crate) struct Asked<'a> {
    pub(crate) alloc: Global,
    pub(crate) command: Command<'a>,
    pub(crate) program: &'a Program,
}

impl<'a> Asked<'a> {
    /// Keeps the journal of a run that was made, where the command names a file for it, and then writes what is told of the
    /// run. All texts but the journal's are made before the first is written, and that one before the file is touched.
    pub(crate) fn write<F: Files, K: Sink>(&self, run: Run, files: &mut F, out: &mut K) -> Done
        requires sound { IsSoundProgram self.now.program.now }
        requires asked { CanBeAsked (said self.now.command) }
        requires runs { AsksForRun (said self.now.command) }
        requires run { IsRunFor (said self.now.command) self.now.program.now run }
        ensures told { (disk : CallDisk) → ToldRun (said self.now.command) self.now.program.now (F.content files.old)
            (left_by F.content F.write_faults K.taken K.faults files.old files.new out.old out.new disk result.journal.entries)
            result.status }
        ensures journal { (result.status ≡ Status.NoMemory) ⊎ (result.journal.entries ≡ run.journal.entries) }
        ensures unchanged { (name : List ℕ) → journal_of (said self.now.command) ≢ Some name → F.content files.new name ≡ F.content files.old name }
        ensures reads { (name : List ℕ) → F.read_faults files.new name ≡ F.read_faults files.old name }
    {
        let text = match run_text(self.alloc, self.program, &run, self.command) {
            Ok(text) => text,
            Err(refused) => return out_of_memory(self.alloc, refused),
        };
        match keep_journal(self.alloc, self.command.journal(), &run.journal, files) {
            Ok(()) => {
                let status = write_or_fail(text.as_slice(), status_of_run(run.outcome), out);
                ended(run, status)
            }
            Err(FileFault::Failed) => ended(run, Status::WriteFault),
            Err(FileFault::NoMemory(refused)) => out_of_memory(self.alloc, refused),
        }
    }

    /// Runs the program by slots, over the simulated cluster, and writes what is told of the run.
    pub(crate) fn run_by_slots<F: Files, K: Sink>(&self, files: &mut F, out: &mut K) -> Done
        requires sound { IsSoundProgram self.now.program.now }
        requires asked { CanBeAsked (said self.now.command) }
        requires runs { AsksForRun (said self.now.command) }
        requires slots { making_of (said self.now.command) ≡ BySlots (seed_of (said self.now.command)) }
        ensures told { (disk : CallDisk) → ToldRun (said self.now.command) self.now.program.now (F.content files.old)
            (left_by F.content F.write_faults K.taken K.faults files.old files.new out.old out.new disk result.journal.entries)
            result.status }
        ensures unchanged { (name : List ℕ) → journal_of (said self.now.command) ≢ Some name → F.content files.new name ≡ F.content files.old name }
    {
        match run_program(self.alloc, self.program, self.schedule()) {
            Ok(run) => self.write(run, files, out),
            Err(refused) => out_of_memory(self.alloc, refused),
        }
    }

    /// How its run by slots goes.
    pub(crate) fn schedule(&self) -> Schedule
        ensures seed { result.seed ≡ seed_of (said self.now.command) }
        ensures steps { result.steps ≡ steps_of (said self.now.command) }
        ensures collect { result.collect ≡ collect_of (said self.now.command) }
    {
        Schedule {
            seed: self.command.seed(),
            steps: self.command.steps(),
            collect: self.command.collect(),
        }
    }

    /// Runs the program in threads, and writes what is told of the run.
    #[tactic(auto, using(crate::proofs::runs::Halted::run_for_threads))]
    pub(crate) fn run_by_threads<R: Threads + Wait + Sync, F: Files, K: Sink, G: Gate>(
        &self,
        threading: &Threading<'_, R, G>,
        files: &mut F,
        out: &mut K,
    ) -> Done
        requires sound { IsSoundProgram self.now.program.now }
        requires asked { CanBeAsked (said self.now.command) }
        requires runs { AsksForRun (said self.now.command) }
        requires threads { making_of (said self.now.command) ≡ ByThreads }
        ensures told { (disk : CallDisk) → ToldRun (said self.now.command) self.now.program.now (F.content files.old)
            (left_by F.content F.write_faults K.taken K.faults files.old files.new out.old out.new disk result.journal.entries)
            result.status }
        ensures unchanged { (name : List ℕ) → journal_of (said self.now.command) ≢ Some name → F.content files.new name ≡ F.content files.old name }
    {
        match threading.run(self.program, self.command.steps()) {
            Ok(run) => self.write(run, files, out),
            Err(refused) => out_of_memory(self.alloc, refused),
        }
    }
}
