//! The run of a program in threads of the process (`specs/Halting.antt`).
ghost use Rattle.std.specs.Prelude.{◌≡◌, ◌≤◌, List, IfOk, reverse};
ghost use Rattle.dso_base.specs.declared.journal.Entry.{Entry};
ghost use Rattle.dso_class.specs.Sound.{IsSoundProgram};
ghost use Rattle.dso_host.specs.HostStates.{IsHostJournal, Stands};
ghost use Rattle.dso_run.specs.Halting.{IsHalted, outcome_by};
ghost use Rattle.dso_run.specs.Headline.{IsRunOf};
ghost use Rattle.dso_run.specs.RunEnds.{ByThreads, is_faulty};

use crate::running::{Outcome, Run, finish_of};
use dso_base::{Journal, NoMemory};
use dso_class::Program;
use dso_command_line::BUDGET;
use dso_host::{Gate, Host};
use std::alloc::Global;
use std::sync::Wait;
use std::thread::Threads;

/// A gate that holds no worker back.
#[derive(Clone, Copy, Debug)]
pub struct NoGate;

impl Gate for NoGate {
    fn turn(&self, _node: u8, _worker: u8) {}
}

/// Where a run in threads halted: finished, with no slot open, or out of its budget.
#[derive(Clone, Copy, Debug, PartialEq, Eq)]
pub(crate) enum Halt {
    Finished,
    Stuck,
    Budget,
}

/// What a run in threads goes by: the runtime that gives them, and the gate that they pass.
#[derive(Drop)]
pub(crate) struct Threading<'a, R, G> {
    pub(crate) rt: &'a R,
    pub(crate) alloc: Global,
    pub(crate) gate: &'a G,
}

impl<'a, R: Threads + Wait + Sync, G: Gate> Threading<'a, R, G> {
    /// Runs the program in threads, epoch after epoch, until it is finished, its journal weighs so much, or no slot is
    /// open. These are tested in that order before each epoch, the last from the second on.
    pub(crate) fn run(&self, program: &Program, steps: u64) -> Result<Run, NoMemory>
        requires sound { IsSoundProgram program.now }
        requires steps { steps ≤ BUDGET }
        ensures { IfOk result (λ run. IsRunOf program.now ByThreads steps run.outcome run.journal.entries) }
    {
        let mut host = Host::new(self.alloc, program)?;
        let halt = self.run_on(program, steps, &mut host)?;
        let journal = host.gather(self.alloc)?;
        Ok(Run {
            outcome: outcome_of(program, halt, &journal),
            swept: 0,
            journal,
        })
    }

    /// Lets the host run, epoch after epoch, until it halts.
    fn run_on(&self, program: &Program, steps: u64, host: &mut Host) -> Result<Halt, NoMemory>
        requires sound { IsSoundProgram program.now }
        requires steps { steps ≤ BUDGET }
        requires stands { Stands program.now host.old }
        ensures stands { Stands program.now host.new }
        ensures halted { IfOk result (λ halt. (entries : List Entry) → IsHostJournal program.now host.new entries
            → IsHalted program.now steps halt (reverse entries)) }
    {
        let mut is_open = true;
        for _ in self.rt.forever() {
            if host.finished(program) {
                return Ok(Halt::Finished);
            }
            if host.weight() >= steps {
                return Ok(Halt::Budget);
            }
            if !is_open {
                return Ok(Halt::Stuck);
            }
            is_open = host.epoch(self.rt, self.alloc, program, self.gate)?;
        }
        unreachable!()
    }
}

/// How a run ended that halted: where it is finished, with a fault of a kept thread or without one.
fn outcome_of(program: &Program, halt: Halt, journal: &Journal) -> Outcome
    ensures { result ≡ outcome_by halt (is_faulty program.now.threads (reverse journal.now.entries)) }
{
    match halt {
        Halt::Finished => finish_of(program, journal),
        Halt::Stuck => Outcome::Stuck,
        Halt::Budget => Outcome::Budget,
    }
}
