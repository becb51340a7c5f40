//! What cells tell of the journal that is gathered of them (`specs/OpenSlots.antt`).
ghost use Rattle.std.specs.Prelude.{◌≡◌, ◌≤◌, IfNone, IfSome};
ghost use Rattle.dso_host.specs.OpenSlots.{HasNoPair, IsPairOf, TellsBusyOf, TellsFinished};

use crate::Cells;
use dso_cell::ClientPair;
use dso_class::Program;

impl Cells {
    /// The client of this number, as its cell and the server know it. None where there is no such client. It takes no memory.
    pub fn pair<'a>(&'a self, client: u8) -> Option<ClientPair<'a>>
        requires { 1 ≤ client }
        ensures some { IfSome result (IsPairOf self.now client) }
        ensures none { IfNone result (HasNoPair self.now client) }
    {
        match self.clients.get(client as usize - 1) {
            Some(cell) => self.server.pair(client, cell),
            None => None,
        }
    }

    /// Whether the client of this number is busy.
    fn is_busy(&self, client: u8) -> bool
        requires { 1 ≤ client }
        ensures { TellsBusyOf self.now client result }
    {
        match self.pair(client) {
            Some(pair) => pair.is_busy(),
            None => false,
        }
    }

    /// Whether the run is finished: no client is busy. It takes no memory.
    pub fn is_finished(&self, program: &Program) -> bool
        ensures { TellsFinished program.now self.now result }
    {
        for place in 0..program.clients {
            if self.is_busy(place + 1) {
                return false;
            }
        }
        true
    }
}
