//! Turns of all cells on one thread.
ghost use Rattle.std.specs.Prelude.{OnOk};
ghost use Rattle.dso_class.specs.Sound.{IsSoundProgram};
ghost use Rattle.dso_host.specs.HostStates.{AreWhole};

use crate::Cells;
use crate::worker::Worker;
use dso_base::NoMemory;
use dso_class::Program;
use std::alloc::Global;

/// So many rounds are made at most: more than a ring has places, so that frames of an earlier connection, of which a turn
/// takes one, don't keep all of them from a step. That a step is made where one can be no clause says.
const MOST_ROUNDS: u32 = 130;

impl Cells {
    /// A turn of each worker after the other on this thread, in rounds, until one adds an entry. It answers `NoMemory` where an
    /// allocation was refused; a cell is spent then.
    pub(crate) fn step_alone(
        &mut self,
        alloc: Global,
        program: &Program,
        workers: &[Worker],
    ) -> Result<(), NoMemory>
        requires sound { IsSoundProgram program.now }
        requires whole { AreWhole program.now self.old }
        ensures { OnOk result (AreWhole program.now self.new) }
    {
        for _ in 0..MOST_ROUNDS {
            if self.round(alloc, program, workers)? {
                return Ok(());
            }
        }
        Ok(())
    }

    /// A turn of each worker, until one adds an entry; whether one did.
    fn round(
        &mut self,
        alloc: Global,
        program: &Program,
        workers: &[Worker],
    ) -> Result<bool, NoMemory>
        requires sound { IsSoundProgram program.now }
        requires whole { AreWhole program.now self.old }
        ensures { OnOk result (AreWhole program.now self.new) }
    {
        for worker in workers {
            if self.turn(alloc, program, *worker)? {
                return Ok(true);
            }
        }
        Ok(false)
    }

    /// A turn of a worker; whether it added an entry.
    fn turn(&mut self, alloc: Global, program: &Program, worker: Worker) -> Result<bool, NoMemory>
        requires sound { IsSoundProgram program.now }
        requires whole { AreWhole program.now self.old }
        ensures { OnOk result (AreWhole program.now self.new) }
    {
        if worker.node == 0 {
            return self.server.turn(alloc, &program.code);
        }
        match self.clients.get_mut(worker.node as usize - 1) {
            Some(cell) => cell.turn(alloc, &program.code, worker.index),
            None => Ok(false),
        }
    }
}
