//! The workers of an epoch: each makes turns of one node's cell, under that node's lock.
ghost use Rattle.dso_cell.specs.LockedCells.{RunsNamed};
ghost use Rattle.dso_machine.specs.Sound.{IsSoundCode};

use crate::rest::Rest;
use crate::{Gate, Setting};
use dso_base::NoMemory;
use dso_cell::{LockedClient, LockedServer, Naming};
use dso_class::Program;
use std::alloc::Global;
use std::sync::{Mutex, Wait};
use std::{hint, thread};

/// How many turns a worker makes in an epoch at most.
const MOST_TURNS: u32 = 256;

/// So long it looks on behind a turn that added nothing, some microseconds: what it waits for mostly takes a few turns of others.
const LOOKS: u32 = 200;

/// A worker: the number of the client whose cell it drives, 0 for the server's; the thread that acts in its turns, 0
/// for the node's pump; and whether one of its turns in this epoch added an entry.
#[derive(Clone, Copy, Debug)]
pub struct Worker {
    pub(crate) node: u8,
    pub(crate) index: u8,
    pub(crate) has_added: bool,
}

/// The cell that a worker drives, behind its lock; a client's with its number.
#[derive(Drop)]
pub enum LockedNode<'a, N: Naming> {
    Client(u8, &'a Mutex<LockedClient<N>>),
    Server(&'a Mutex<LockedServer<N>>),
}

/// The workers of a program: the server's; and of each client its pump, and one for each of its threads.
pub fn workers_of(alloc: Global, program: &Program) -> Result<Vec<Worker>, NoMemory> {
    let mut workers = Vec::new(alloc);
    workers.push(Worker::new(0, 0))?;
    for place in 0..program.clients {
        workers.push(Worker::new(place + 1, 0))?;
    }
    for thread in program.threads.as_slice() {
        workers.push(Worker::new(thread.client, thread.index))?;
    }
    Ok(workers)
}

impl Worker {
    fn new(node: u8, index: u8) -> Worker {
        Worker {
            node,
            index,
            has_added: false,
        }
    }

    /// Its turns, until it has made all, or it and all other workers are at rest.
    pub fn work<N: Naming, R: Wait, G: Gate>(
        &mut self,
        setting: &Setting<'_, R, G>,
        node: &LockedNode<'_, N>,
    )
        requires sound { IsSoundCode setting.now.program.now.code }
        requires names { RunsNamed setting.now.program.now.code N.cluster }
    {
        self.has_added = false;
        let mut rest = Rest::new(setting.busy);
        for _ in 0..MOST_TURNS {
            setting.gate.turn(self.node, self.index);
            if node.turn(setting, self.index) {
                self.has_added = true;
                rest.end();
            } else if rest.go_on() {
                return;
            } else {
                let_others_run();
            }
        }
        rest.leave();
    }
}

/// Leaves the node alone for a moment, and then lets another thread run in its place: on a busy machine that may take
/// long, so it is done once a turn.
fn let_others_run() {
    for _ in 0..LOOKS {
        hint::spin_loop();
    }
    thread::yield_now();
}

impl<'a, N: Naming> LockedNode<'a, N> {
    /// A turn of the cell, under its lock: whether an entry was added.
    fn turn<R: Wait, G>(&self, setting: &Setting<'_, R, G>, index: u8) -> bool
        requires sound { IsSoundCode setting.now.program.now.code }
        requires names { RunsNamed setting.now.program.now.code N.cluster }
    {
        let code = &setting.program.code;
        match self {
            LockedNode::Client(number, cell) => {
                cell.lock(setting.rt)
                    .turn(setting.alloc, code, *number, index)
            }
            LockedNode::Server(cell) => cell.lock(setting.rt).turn(setting.alloc, code),
        }
    }
}
