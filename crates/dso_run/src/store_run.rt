//! The run of a program over a store, step by step (`specs/StoreRuns.antt`).
ghost use Rattle.std.specs.Prelude.{◌≡◌, ◌≢◌, ◌+◌, ◌*◌, ◌<◌, ◌≤◌, ◌^◌, ℕ, List, [], None, Option, true, false, reverse, IfErr, IfOk, IsErrOf, OnOk};
ghost use Rattle.dso_base.specs.declared.record.Txn.{Txn};
ghost use Rattle.dso_class.specs.Sound.{IsSoundProgram};
ghost use Rattle.dso_command_line.specs.Words.{IsInterval};
ghost use Rattle.dso_io.specs.Environment.{Rose};
ghost use Rattle.dso_keep.specs.Crash.{CrashLeaves};
ghost use Rattle.dso_keep.specs.Disk.{File};
ghost use Rattle.dso_keep.specs.Keeping.{IsFromOutside, KeepStands, gate_of};
ghost use Rattle.dso_keep.specs.Records.{HoldsRecords};
ghost use Rattle.dso_keep.specs.declared.fault.KeepFault.TheVariants as fault;
ghost use Rattle.dso_kept.specs.Keeping.{GoesOnByOne, IsStoreOf, ReopensEither, ReopensFirst, applied};
ghost use Rattle.dso_legal.specs.Slots.{weight};
ghost use Rattle.dso_machine.specs.Next.{next_request};
ghost use Rattle.dso_run.specs.declared.store_run.StoreRun.TheVariants.{CutOff, Ended};
ghost use Rattle.dso_run.specs.Collecting.{CountsSoFar};
ghost use Rattle.dso_run.specs.Headline.{IsRunOf};
ghost use Rattle.dso_run.specs.RunEnds.{BySlots, IsRun};
ghost use Rattle.dso_run.specs.Stepping.{IsTurn, RunsOn};
ghost use Rattle.dso_run.specs.StoreRuns.{IsStoreRunOf, IsWholeIn, journal_in};
ghost use Rattle.dso_run.specs.Swept.{CountsSwept};
ghost use Rattle.dso_world.specs.WorldStands.{SweepsNothing, WorldStands, entries_in, is_spent};
ghost use Rattle.dso_world.specs.WorldSteps.{settings_of};

use crate::collecting::collect_if_due;
use crate::running::{Outcome, Run, Schedule, finish_of};
use dso_base::{Journal, NoMemory};
use dso_class::Program;
use dso_command_line::BUDGET;
use dso_keep::{Disk, Keep, KeepFault};
use dso_kept::kept_step;
use dso_world::World;
use std::alloc::Global;

/// What a run over a store comes to: it ended, or the disk failed in it, and this is its journal so far.
#[derive(Drop)]
pub(crate) enum StoreRun {
    Ended(Run),
    CutOff(Journal),
}

/// What a run goes by: the program, and its schedule.
#[derive(Drop)]
pub(crate) struct Course<'a> {
    pub(crate) alloc: Global,
    pub(crate) program: &'a Program,
    pub(crate) schedule: Schedule,
}

impl<'a> Course<'a> {
    /// Runs the program as `run_program` does, over a store that has no record yet: each record that the server applies is
    /// in the store before a client can take its acknowledgement.
    ///
    /// A crash at any moment, since one at which a crash left no record, leaves a file that reopens to some of the first of
    /// the records that the server of the journal has applied; once the run ended, to all of them.
    pub(crate) fn run<D: Disk>(&self, keep: Keep, disk: &mut D) -> Result<StoreRun, NoMemory>
        requires sound { IsSoundProgram self.now.program.now }
        requires steps { self.now.schedule.steps ≤ BUDGET }
        requires interval { IsInterval self.now.schedule.collect }
        requires keeps { KeepStands [] keep (D.file disk.old) }
        ensures run { IfOk result (IsStoreRunOf self.now.program.now self.now.schedule.seed self.now.schedule.steps) }
        ensures swept { IfOk result (λ run. (ended : Run) → run ≡ Ended ended → CountsSwept self.now.program.now self.now.schedule.collect ended.journal.entries ended.swept) }
        ensures whole { IfOk result (λ run. IsWholeIn self.now.program.now.code.shape (applied (reverse (journal_in run))) (D.file disk.new) run) }
        ensures crash { (start : Option File) → CrashLeaves (λ left. HoldsRecords left []) start (D.file disk.old)
            → IfOk result (λ run. CrashLeaves (ReopensFirst self.now.program.now.code.shape (applied (reverse (journal_in run)))) start (D.file disk.new)) }
        ensures failed { IfOk result (λ run. (journal : Journal) → run ≡ CutOff journal → Rose (D.faults disk.old) (D.faults disk.new)) }
        ensures sound { IfOk result (λ run. (ended : Run) → run ≡ Ended ended → D.faults disk.new ≡ D.faults disk.old) }
        ensures faults { D.faults disk.old ≤ D.faults disk.new }
    {
        let mut world = World::new(self.alloc, self.program)?;
        let ended = self.run_on(&mut world, keep, disk);
        let journal = world.into_journal();
        match ended {
            Ok((outcome, swept)) => Ok(StoreRun::Ended(Run {
                outcome,
                swept,
                journal,
            })),
            Err(KeepFault::Disk) => Ok(StoreRun::CutOff(journal)),
            Err(KeepFault::NoMemory(refused)) => Err(refused),
            Err(KeepFault::NotEmpty(_) | KeepFault::BadRecord(_)) => unreachable!(),
        }
    }

    /// The run of a cluster from where it stands to its end, over a store that has what its server has applied, and how many
    /// objects were swept by then.
    fn run_on<D: Disk>(
        &self,
        world: &mut World,
        keep: Keep,
        disk: &mut D,
    ) -> Result<(Outcome, u64), KeepFault>
        requires sound { IsSoundProgram self.now.program.now }
        requires steps { self.now.schedule.steps ≤ BUDGET }
        requires interval { IsInterval self.now.schedule.collect }
        requires runs { RunsOn self.now.program.now self.now.schedule.seed self.now.schedule.steps world.old }
        requires swept { CountsSoFar self.now.program.now self.now.schedule.collect 0 world.old }
        requires keeps { KeepStands (applied (entries_in world.old)) keep (D.file disk.old) }
        requires room { gate_of keep ≤ (2 ^ 32 + 4) * weight (entries_in world.old) }
        ensures ended { IfOk result (λ ended. IsRunOf self.now.program.now (BySlots self.now.schedule.seed) self.now.schedule.steps ended.0 world.new.journal.entries) }
        ensures swept { IfOk result (λ ended. CountsSwept self.now.program.now self.now.schedule.collect world.new.journal.entries ended.1) }
        ensures whole { OnOk result (IsStoreOf self.now.program.now.code.shape (applied (entries_in world.new)) (D.file disk.new)) }
        ensures so_far { IsErrOf result fault.Disk → IsRun (settings_of self.now.program.now) (next_request self.now.program.now.code)
            (BySlots self.now.schedule.seed) self.now.schedule.steps (entries_in world.new) }
        ensures crash { (start : Option File) → CrashLeaves (ReopensFirst self.now.program.now.code.shape (applied (entries_in world.old))) start (D.file disk.old)
            → CrashLeaves (ReopensFirst self.now.program.now.code.shape (applied (entries_in world.new))) start (D.file disk.new) }
        ensures refusals { IfErr result IsFromOutside }
        ensures failed { IsErrOf result fault.Disk → Rose (D.faults disk.old) (D.faults disk.new) }
        ensures sound { OnOk result (D.faults disk.new ≡ D.faults disk.old) }
        ensures faults { D.faults disk.old ≤ D.faults disk.new }
    {
        let mut current = keep;
        let mut swept = 0;
        while !world.finished() && world.weight() < self.schedule.steps {
            let (made, next) = self.take_step(world, current, disk)?;
            current = next;
            if !made {
                return Ok((Outcome::Stuck, swept));
            }
            swept += collect_if_due(self.alloc, world, self.schedule.collect)?;
        }
        if world.finished() {
            Ok((finish_of(self.program, world.journal()), swept))
        } else {
            Ok((Outcome::Budget, swept))
        }
    }

    /// The step at the chosen slot, over a store: true where one was made, false where no slot is open.
    fn take_step<D: Disk>(
        &self,
        world: &mut World,
        keep: Keep,
        disk: &mut D,
    ) -> Result<(bool, Keep), KeepFault>
        requires sound { IsSoundProgram self.now.program.now }
        requires stands { WorldStands self.now.program.now world.old }
        requires whole { is_spent world.old ≡ false }
        requires weight { weight (entries_in world.old) < BUDGET }
        requires keeps { KeepStands (applied (entries_in world.old)) keep (D.file disk.old) }
        requires room { gate_of keep + 2 ^ 32 + 6 < 2 ^ 63 }
        ensures turn { IfOk result (λ made. IsTurn self.now.program.now self.now.schedule.seed made.0 world.old world.new) }
        ensures swept { OnOk result (SweepsNothing self.now.program.now world.old world.new) }
        ensures stands { WorldStands self.now.program.now world.new }
        ensures whole { OnOk result (is_spent world.new ≡ false) }
        ensures keeps { IfOk result (λ made. KeepStands (applied (entries_in world.new)) made.1 (D.file disk.new)) }
        ensures gate { IfOk result (λ made. gate_of made.1 ≤ gate_of keep + 2 ^ 32 + 4) }
        ensures disk_failed { IsErrOf result fault.Disk → IsTurn self.now.program.now self.now.schedule.seed true world.old world.new × (is_spent world.new ≡ false) }
        ensures refusals { IfErr result IsFromOutside }
        ensures failed { IsErrOf result fault.Disk → Rose (D.faults disk.old) (D.faults disk.new) }
        ensures sound { OnOk result (D.faults disk.new ≡ D.faults disk.old) }
        ensures faults { D.faults disk.old ≤ D.faults disk.new }
        ensures one { GoesOnByOne (applied (entries_in world.old)) (applied (entries_in world.new)) }
        ensures crash { CrashLeaves (ReopensEither self.now.program.now.code.shape (applied (entries_in world.old)) (applied (entries_in world.new)))
            (D.file disk.old) (D.file disk.new) }
    {
        match world.choose(self.schedule.seed) {
            Some(step) => kept_step(self.alloc, self.program, world, keep, disk, step),
            None => Ok((false, keep)),
        }
    }
}
