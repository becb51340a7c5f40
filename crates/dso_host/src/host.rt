//! The host of a cluster whose nodes run in threads (`specs/HostStates.antt`).
ghost use Rattle.std.specs.Prelude.{◌≡◌, ◌-◌, ◌^◌, IfOk, List, None, OnErr, [], min, reverse, true};
ghost use Rattle.std.specs.Result.{is_err};
ghost use Rattle.dso_base.specs.declared.journal.Entry.{Entry};
ghost use Rattle.dso_class.specs.declared.program.Program.{Program};
ghost use Rattle.dso_class.specs.Sound.{IsSoundProgram};
ghost use Rattle.dso_host.specs.HostStates.{AreAtRest, AreWhole, IsHostJournal, Stands};
ghost use Rattle.dso_legal.specs.Lawful.{IsLawful};
ghost use Rattle.dso_legal.specs.Slots.{is_any, is_finished, open_slots, weight};
ghost use Rattle.dso_machine.specs.Next.{next_request};
ghost use Rattle.dso_world.specs.WorldSteps.{settings_of};

use crate::epoch::run_cells;
use crate::worker::{Worker, workers_of};
use crate::{Cells, Gate, Setting, cells_of};
use dso_base::{Journal, NoMemory};
use dso_class::Program;
use std::alloc::{AllocError, Global};
use std::marker::{Brand, Model};
use std::mem;
use std::sync::Wait;
use std::sync::atomic::AtomicUsize;
use std::thread::Threads;

/// The host of a cluster: its cells, and the workers that drive them in each epoch.
///
/// Contracts see its cells, and none where it is spent. Between epochs it holds them by value; within one it counts as
/// spent.
#[derive(Drop)]
pub struct Host {
    state: Result<Cells, NoMemory>,
    workers: Vec<Worker>,
}

impl Model for Host {
    ghost use Rattle.std.specs.Prelude.{Option};
    ghost use Rattle.std.specs.Coded.{codes};
    ghost use Rattle.dso_host.specs.declared.cells.Cells.{Cells};
    ghost use Rattle.dso_host.specs.contracts.cells.Cells.{the_row};
    ghost use Rattle.dso_host.specs.HostStates.{cells_in};

    ghost Value = { Option Cells };

    ghost coded = { Prim.hlevel (codes, the_row.coded) };

    ghost view = { λ host. cells_in host.state };
}

/// The workers' turns, each cell behind its lock; then, where these added no entry, one step on this thread, if one can be made;
/// then both ends of each client's connection learn all that is in their rings.
fn cells_after<R: Threads + Wait + Sync, G: Gate>(
    setting: &Setting<'_, R, G>,
    workers: &mut Vec<Worker>,
    cells: Cells,
) -> Result<Cells, NoMemory>
    requires sound { IsSoundProgram setting.now.program.now }
    requires rest { AreAtRest setting.now.program.now cells }
    ensures { IfOk result (AreAtRest setting.now.program.now) }
{
    let driven = run_cells::<Brand, R, G>(setting, workers, cells)?;
    let mut cells = stepped(setting, workers.as_slice(), driven)?;
    cells.meet(setting.program);
    Ok(cells)
}

/// The cells behind a step on this thread, where no worker added an entry and one can be made.
fn stepped<R, G>(
    setting: &Setting<'_, R, G>,
    workers: &[Worker],
    mut cells: Cells,
) -> Result<Cells, NoMemory>
    requires sound { IsSoundProgram setting.now.program.now }
    requires whole { AreWhole setting.now.program.now cells }
    ensures { IfOk result (AreWhole setting.now.program.now) }
{
    if !workers.iter().any(|worker| worker.has_added) {
        cells.step_alone(setting.alloc, setting.program, workers)?;
    }
    Ok(cells)
}

impl Host {
    /// The host of a program before its first epoch: no entry was made. It answers `NoMemory` where an allocation was
    /// refused.
    pub fn new(alloc: Global, program: &Program) -> Result<Host, NoMemory>
        requires { IsSoundProgram program.now }
        ensures stands { IfOk result (Stands program.now) }
        ensures empty { IfOk result (λ host. IsHostJournal program.now host []) }
    {
        let workers = workers_of(alloc, program)?;
        let (clients, server) = cells_of(alloc, program)?;
        Ok(Host {
            state: Ok(Cells { clients, server }),
            workers,
        })
    }

    /// An epoch: each thread of a client, each client's pump and the server's worker make turns, in a thread of the process each and
    /// under the lock of their node; before each turn the gate is called. Where none of these turns added an entry the host makes a step
    /// itself, if one can be made. Behind it both ends of each connection know all that is in their rings.
    ///
    /// It answers whether any slot of the journal is open then. `NoMemory` where an allocation was refused, or of a spent
    /// host; the host is spent then. It may not return, since it waits for locks and for the gate.
    pub fn epoch<R: Threads + Wait + Sync, G: Gate>(
        &mut self,
        rt: &R,
        alloc: Global,
        program: &Program,
        gate: &G,
    ) -> Result<bool, NoMemory>
        requires sound { IsSoundProgram program.now }
        requires stands { Stands program.now self.old }
        ensures stands { Stands program.now self.new }
        ensures answer { IfOk result (λ is_open. (entries : List Entry) → IsHostJournal program.now self.new entries
            → is_open ≡ is_any (open_slots (settings_of program.now) (next_request program.now.code) (reverse entries))) }
        ensures spent { OnErr result (self.new ≡ None) }
        ensures refused { self.old ≡ None → is_err result ≡ true }
    {
        let cells = mem::replace(&mut self.state, Err(of_spent()))?;
        let busy = AtomicUsize::new(self.workers.len());
        let setting = Setting {
            rt,
            alloc,
            program,
            gate,
            busy: &busy,
        };
        let cells = cells_after(&setting, &mut self.workers, cells)?;
        let is_open = cells.is_any_open(program);
        self.state = Ok(cells);
        Ok(is_open)
    }

    /// Whether the run is finished: every thread of a client that isn't lost has ended, no message is on the way between the
    /// server and such a client, and no trigger is due. It takes no memory. Nothing is said of a spent host's answer.
    pub fn finished(&self, program: &Program) -> bool
        ensures { (entries : List Entry) → IsHostJournal program.now self.now entries
            → result ≡ is_finished (settings_of program.now) (reverse entries) }
    {
        match &self.state {
            Ok(cells) => cells.is_finished(program),
            Err(_) => false,
        }
    }

    /// What the journal weighs, and 2^64 - 1 where that is more. It takes no memory. Nothing is said of a spent host's
    /// answer.
    pub fn weight(&self) -> u64
        ensures { (program : Program) (entries : List Entry) → IsHostJournal program self.now entries
            → result ≡ min (weight (reverse entries)) (2 ^ 64 - 1) }
    {
        match &self.state {
            Ok(cells) => cells.weight(),
            Err(_) => 0,
        }
    }

    /// The journal that all logs make, by clock and then by node. It answers `NoMemory` where an allocation was refused, or of a spent
    /// host.
    pub fn gather(self, alloc: Global) -> Result<Journal, NoMemory>
        ensures gathered { IfOk result (λ journal. (program : Program) → IsSoundProgram program → Stands program self
            → IsHostJournal program self journal.entries) }
        ensures lawful { IfOk result (λ journal. (program : Program) → IsSoundProgram program → Stands program self
            → IsLawful (settings_of program) (next_request program.code) (reverse journal.entries)) }
        ensures refused { self ≡ None → is_err result ≡ true }
    {
        self.state?.gather(alloc)
    }
}

/// What a host answers that counts as spent though no allocation was refused.
fn of_spent() -> NoMemory {
    NoMemory::from(AllocError)
}
