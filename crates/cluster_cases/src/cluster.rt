//! The cells of a cluster, with its program (`specs/Bounds.antt`).
ghost use Rattle.dso_class.specs.Sound.{IsSoundProgram};

use crate::turns::{added, all_turns, client_turn, spent_count};
use case_programs::Case;
use dso_base::{Journal, NoMemory};
use dso_cell::{ClientCell, ServerCell};
use dso_class::Program;
use dso_host::cells_of;
use dso_log::merge;
use std::alloc::Global;
use std::marker::Model;

/// The cells of a program's cluster. Contracts see how many clients it has.
#[derive(Drop)]
pub struct Cluster {
    program: Program,
    clients: Vec<ClientCell>,
    server: ServerCell,
}

impl Model for Cluster {
    ghost use Rattle.std.specs.Prelude.{ℕ, length};
    ghost use Rattle.cluster_cases.specs.Bounds.{ClusterKeeps};

    ghost Value = { ℕ };

    ghost view = { λ cluster. length cluster.clients.items };

    ghost invariant = { λ cluster. ClusterKeeps cluster.program cluster.clients.items cluster.server };
}

impl Cluster {
    /// New cells; None where the texts are refused.
    pub fn of_case(alloc: Global, case: Case<'_>) -> Result<Option<Cluster>, NoMemory> {
        match case.program(alloc)? {
            Some(program) => Ok(Some(Cluster::of_program(alloc, program)?)),
            None => Ok(None),
        }
    }

    /// New cells of a program.
    fn of_program(alloc: Global, program: Program) -> Result<Cluster, NoMemory>
        requires { IsSoundProgram program }
    {
        let (clients, server) = cells_of(alloc, &program)?;
        Ok(Cluster {
            program,
            clients,
            server,
        })
    }

    /// A turn of the client of this number, with this worker.
    pub fn client_turn(&mut self, alloc: Global, number: u8, worker: u8) -> Result<bool, NoMemory> {
        let clients = self.clients.as_mut_slice();
        client_turn(alloc, &self.program.code, clients, number, worker)
    }

    /// A turn of the server.
    pub fn server_turn(&mut self, alloc: Global) -> Result<bool, NoMemory> {
        self.server.turn(alloc, &self.program.code)
    }

    /// A turn of each pump and thread of each client, and of the server: how many added an entry.
    pub fn round(&mut self, alloc: Global) -> u64 {
        let clients = all_turns(alloc, &self.program.code, self.clients.as_mut_slice());
        let server = added(self.server.turn(alloc, &self.program.code));
        clients.saturating_add(server)
    }

    /// How many cells are spent.
    pub fn spent(&self) -> u64 {
        spent_count(self.clients.as_slice(), &self.server)
    }

    /// The journal that all logs make.
    pub fn into_journal(self, alloc: Global) -> Result<Journal, NoMemory> {
        let Cluster {
            clients,
            server,
            ..
        } = self;
        let mut logs = Vec::new(alloc);
        logs.push(server.into_log())?;
        for cell in clients {
            logs.push(cell.into_log())?;
        }
        merge(alloc, logs)
    }
}
