//! The cells of a cluster (`specs/Hosts.antt`).
ghost use Rattle.std.specs.Prelude.{◌≡◌, IfOk};
ghost use Rattle.dso_host.specs.Hosts.{AllKnown, AreOf, HaveLooked, HostStands};
ghost use Rattle.dso_host.specs.Journals.{IsGathered, logs_in};

use dso_base::{Journal, NoMemory};
use dso_cell::{ClientCell, ServerCell};
use dso_class::Program;
use dso_log::{NodeLog, merge};
use std::alloc::Global;

/// The cells of a cluster: those of its clients, by rising number from 1 on, and the server's.
///
/// Contracts see both. What they say of each other stands in `HostStands`.
#[derive(Drop)]
pub struct Cells {
    pub(crate) clients: Vec<ClientCell>,
    pub(crate) server: ServerCell,
}

impl Cells {
    /// Both ends of each client's connection learn all that is in their rings. It takes no memory.
    pub fn meet(&mut self, program: &Program)
        requires { AreOf program.now self.old }
        ensures stands { HostStands program.now self.new }
        ensures known { AllKnown self.new }
        ensures looked { HaveLooked self.old self.new }
    {
        let _ = program;
        self.server.meet(&mut self.clients);
    }

    /// The journal of all logs. It answers `NoMemory` where an allocation was refused.
    pub fn gather(self, alloc: Global) -> Result<Journal, NoMemory>
        ensures { IfOk result (λ journal. IsGathered self journal.entries) }
    {
        merge(alloc, self.into_logs(alloc)?)
    }

    /// The logs of all cells, the server's first.
    fn into_logs(self, alloc: Global) -> Result<Vec<NodeLog>, NoMemory>
        ensures { IfOk result (λ logs. logs.items ≡ logs_in self) }
    {
        let mut logs = Vec::new(alloc);
        logs.push(self.server.into_log())?;
        for cell in self.clients {
            logs.push(cell.into_log())?;
        }
        Ok(logs)
    }
}
