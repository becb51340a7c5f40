//! The run of a program over the simulated cluster, step by step (`specs/RunEnds.antt`).
ghost use Rattle.std.specs.Prelude.{◌≡◌, ◌≤◌, ◌<◌, false, reverse, IfOk, OnOk};
ghost use Rattle.dso_class.specs.Sound.{IsSoundProgram};
ghost use Rattle.dso_command_line.specs.Words.{IsInterval};
ghost use Rattle.dso_legal.specs.Slots.{weight};
ghost use Rattle.dso_run.specs.Collecting.{CountsSoFar};
ghost use Rattle.dso_run.specs.Headline.{IsRunOf};
ghost use Rattle.dso_run.specs.RunEnds.{BySlots, is_faulty};
ghost use Rattle.dso_run.specs.Stepping.{IsTurn, RunsOn, finish_by};
ghost use Rattle.dso_run.specs.Swept.{CountsSwept};
ghost use Rattle.dso_world.specs.WorldStands.{SweepsNothing, WorldStands, entries_in, is_spent};

use crate::collecting::collect_if_due;
use crate::failing::is_faulty;
use dso_base::{Journal, NoMemory};
use dso_class::Program;
use dso_command_line::BUDGET;
use dso_world::World;
use std::alloc::Global;

/// How a run ended.
#[derive(Clone, Copy, Debug, PartialEq, Eq)]
pub(crate) enum Outcome {
    Finished,
    FinishedFault,
    Stuck,
    Budget,
}

/// A run: how it ended, how many objects its collections swept, and its journal.
#[derive(Drop)]
pub(crate) struct Run {
    pub(crate) outcome: Outcome,
    pub(crate) swept: u64,
    pub(crate) journal: Journal,
}

/// How a run goes: by round robin, or by a seed; how many steps it may make; and after how many entries each it collects
/// garbage, if it does.
#[derive(Clone, Copy, Debug)]
pub(crate) struct Schedule {
    pub(crate) seed: Option<u64>,
    pub(crate) steps: u64,
    pub(crate) collect: Option<u64>,
}

/// Runs the program until it is finished, has used up its steps, or is stuck. These are tested in that order after each
/// step, the first also before the first step; where a collection is due after a step, it is made before them.
pub(crate) fn run_program(
    alloc: Global,
    program: &Program,
    schedule: Schedule,
) -> Result<Run, NoMemory>
    requires sound { IsSoundProgram program.now }
    requires steps { schedule.steps ≤ BUDGET }
    requires interval { IsInterval schedule.collect }
    ensures run { IfOk result (λ run. IsRunOf program.now (BySlots schedule.seed) schedule.steps run.outcome run.journal.entries) }
    ensures swept { IfOk result (λ run. CountsSwept program.now schedule.collect run.journal.entries run.swept) }
{
    let mut world = World::new(alloc, program)?;
    let ended = run_on(alloc, program, &mut world, schedule);
    let journal = world.into_journal();
    let (outcome, swept) = ended?;
    Ok(Run {
        outcome,
        swept,
        journal,
    })
}

/// The run of a cluster from where it stands to its end, and how many objects were swept by then.
fn run_on(
    alloc: Global,
    program: &Program,
    world: &mut World,
    schedule: Schedule,
) -> Result<(Outcome, u64), NoMemory>
    requires sound { IsSoundProgram program.now }
    requires steps { schedule.steps ≤ BUDGET }
    requires interval { IsInterval schedule.collect }
    requires runs { RunsOn program.now schedule.seed schedule.steps world.old }
    requires swept { CountsSoFar program.now schedule.collect 0 world.old }
    ensures run { IfOk result (λ ended. IsRunOf program.now (BySlots schedule.seed) schedule.steps ended.0 world.new.journal.entries) }
    ensures swept { IfOk result (λ ended. CountsSwept program.now schedule.collect world.new.journal.entries ended.1) }
{
    let mut swept = 0;
    while !world.finished() && world.weight() < schedule.steps {
        if !take_step(alloc, program, world, schedule)? {
            return Ok((Outcome::Stuck, swept));
        }
        swept += collect_if_due(alloc, world, schedule.collect)?;
    }
    if world.finished() {
        Ok((finish_of(program, world.journal()), swept))
    } else {
        Ok((Outcome::Budget, swept))
    }
}

/// How a run that is finished ended: with a fault of a kept thread, or without one.
pub(crate) fn finish_of(program: &Program, journal: &Journal) -> Outcome
    ensures { result ≡ finish_by (is_faulty program.now.threads (reverse journal.now.entries)) }
{
    if is_faulty(program.threads.as_slice(), journal.entries.as_slice()) {
        Outcome::FinishedFault
    } else {
        Outcome::Finished
    }
}

/// The step at the chosen slot: true where one was made, false where no slot is open.
fn take_step(
    alloc: Global,
    program: &Program,
    world: &mut World,
    schedule: Schedule,
) -> Result<bool, NoMemory>
    requires sound { IsSoundProgram program.now }
    requires stands { WorldStands program.now world.old }
    requires whole { is_spent world.old ≡ false }
    requires light { weight (entries_in world.old) < BUDGET }
    ensures turn { IfOk result (λ made. IsTurn program.now schedule.seed made world.old world.new) }
    ensures swept { OnOk result (SweepsNothing program.now world.old world.new) }
    ensures stands { OnOk result (WorldStands program.now world.new) }
    ensures whole { OnOk result (is_spent world.new ≡ false) }
{
    match world.choose(schedule.seed) {
        Some(step) => world.step(alloc, program, step),
        None => Ok(false),
    }
}
