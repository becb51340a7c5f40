//! The server's end of a client's connection (`specs/ServerEnds.antt`).
ghost use Rattle.std.specs.Prelude.{◌≡◌, ◌+◌, ◌<◌, ◌^◌, ◌↔◌, IfOk, IsTrue, OnOk};
ghost use Rattle.dso_cell.specs.ServerCells.{IsAtLimitUp};
ghost use Rattle.dso_cell.specs.ServerEnds.{HasLookedUp, IsGivenDown, sent_more, with_break};

use crate::limits::MOST_SENT;
use dso_base::{Down, NoMemory, Up};
use dso_port::{Arrival, Port, PortFault};
use dso_server::Triggers;
use std::alloc::Global;

/// The server's end of a client's connection, with the client's triggers.
#[derive(Drop)]
pub struct ServerEnd {
    pub(crate) port: Port<Down, Up>,
    pub(crate) triggers: Triggers,
}

impl ServerEnd {
    /// Whether it took a message at the limit, or sent as much as an end sends.
    pub(crate) fn is_at_limit(&self) -> bool
        ensures { IsTrue result ↔ IsAtLimitUp self.now }
    {
        self.port.is_late() || self.port.sent() >= MOST_SENT
    }

    /// Takes a frame from the client's ring, where one is known to be there.
    pub(crate) fn look(&mut self, alloc: Global) -> Result<Arrival<Up>, PortFault>
        ensures { IfOk result (λ told. HasLookedUp told self.old self.new) }
    {
        self.port.take(alloc)
    }

    /// Sends a message, with the clock of its entry.
    pub(crate) fn send(&mut self, message: Down, clock: u64) -> Result<(), NoMemory>
        requires { self.old.port.session.seen < 2 ^ 63 }
        ensures { OnOk result (self.new ≡ sent_more clock message self.old) }
    {
        self.port.send(message, clock)
    }

    /// The connection breaks.
    pub(crate) fn break_now(&mut self)
        requires { self.old.port.session.epoch + 1 < 2 ^ 32 }
        ensures { self.new ≡ with_break self.old }
    {
        self.port.break_now();
    }

    /// Frames go to the client's ring, as many as are due and places are known to be free.
    pub(crate) fn give(&mut self, alloc: Global) -> Result<(), PortFault>
        ensures { OnOk result (IsGivenDown self.old self.new) }
    {
        self.port.give(alloc)
    }
}
