//! What a client's cell and the server's end of its connection tell of the client (`specs/Pairs.antt`).
ghost use Rattle.std.specs.Prelude.{◌≡◌, ◌&&◌, ◌||◌, not};
ghost use Rattle.dso_client.specs.ObjectFlushes.{TellsFlush};
ghost use Rattle.dso_client.specs.Threads.{IsEnabled};
ghost use Rattle.dso_law.specs.Settings.{Settings};
ghost use Rattle.dso_cell.specs.Pairs.{HasTriggers, TellsBusyAt, can_be_heard, can_hear, is_break_due_at, is_behind, is_loss_due_at, is_still, is_trigger_due};

use crate::{ClientCell, ServerEnd};
use std::marker::Model;

/// A client by its number: its cell, the server's end of its connection, and whether it was lost. Contracts see these
/// (`Pair`). No call on it takes memory.
#[derive(Drop)]
pub struct ClientPair<'a> {
    client: u8,
    cell: &'a ClientCell,
    end: &'a ServerEnd,
    is_lost: bool,
}

impl<'a> Model for ClientPair<'a> {
    ghost use Rattle.std.specs.Coded.{codes};
    ghost use Rattle.dso_cell.specs.Pairs.{Pair};
    ghost use Rattle.dso_cell.specs.contracts.client_cell.ClientCell as client_cell;
    ghost use Rattle.dso_cell.specs.contracts.server_end.ServerEnd as server_end;

    ghost Value = { Pair };

    ghost coded = { Prim.hlevel (codes, client_cell.the_row.coded, server_end.the_row.coded) };

    ghost view = { λ pair. record { client = pair.client; cell = pair.cell.now; end = pair.end.now; is_lost = pair.is_lost } };
}

/// Whether a trigger is due, or a client isn't lost, and has a message in flight or a thread that hasn't ended.
fn keeps_going(is_due: bool, is_lost: bool, is_still: bool, is_alive: bool) -> bool
    ensures { result ≡ (is_due || (not is_lost && (not is_still || is_alive))) }
{
    is_due || (!is_lost && (!is_still || is_alive))
}

impl<'a> ClientPair<'a> {
    /// The client of this number with its cell, the server's end of its connection, and whether it was lost.
    pub fn new(
        client: u8,
        cell: &'a ClientCell,
        end: &'a ServerEnd,
        is_lost: bool,
    ) -> ClientPair<'a>
        ensures { result ≡ record { client = client; cell = cell.now; end = end.now; is_lost = is_lost } }
    {
        ClientPair {
            client,
            cell,
            end,
            is_lost,
        }
    }

    /// Whether its thread of this index can act.
    pub fn may_act(&self, index: u8) -> bool
        ensures { IsEnabled self.now.cell.core index result }
    {
        self.cell.core.enabled(index)
    }

    /// Whether it can flush an object.
    pub fn may_flush(&self) -> bool
        ensures { TellsFlush self.now.cell.core result }
    {
        self.cell.core.may_flush()
    }

    /// Whether it can take a message, or take its connection up again.
    pub fn can_hear(&self) -> bool
        ensures { result ≡ can_hear self.now }
    {
        if self.end.port.is_ready() {
            self.cell.port.accepted() < self.end.port.sent()
        } else {
            self.is_behind()
        }
    }

    /// Whether the server can take a message of it, or take its connection up again.
    pub fn can_be_heard(&self) -> bool
        ensures { result ≡ can_be_heard self.now }
    {
        if self.end.port.is_ready() {
            self.end.port.accepted() < self.cell.port.sent()
        } else {
            !self.is_behind()
        }
    }

    /// Whether its connection broke more often than it took it up again.
    fn is_behind(&self) -> bool
        ensures { result ≡ is_behind self.now }
    {
        self.cell.rejoins < self.end.port.epoch()
    }

    /// Whether a loss of it is due.
    pub fn is_loss_due(&self) -> bool
        ensures { (p : Settings) → HasTriggers p self.now → result ≡ is_loss_due_at p self.now }
    {
        self.end
            .triggers
            .is_loss_due(self.end.port.accepted(), self.is_lost)
    }

    /// Whether a break of its connection is due.
    pub fn is_break_due(&self) -> bool
        ensures { (p : Settings) → HasTriggers p self.now → result ≡ is_break_due_at p self.now }
    {
        let is_loss_due = self.is_loss_due();
        self.end.triggers.is_break_due(
            self.end.port.accepted(),
            self.is_lost,
            is_loss_due,
            self.end.port.epoch(),
        )
    }

    /// Whether one of the two is due.
    pub fn is_trigger_due(&self) -> bool
        ensures { (p : Settings) → HasTriggers p self.now → result ≡ is_trigger_due p self.now }
    {
        self.is_loss_due() || self.is_break_due()
    }

    /// Whether all was taken that was sent, both ways.
    fn is_still(&self) -> bool
        ensures { result ≡ is_still self.now }
    {
        self.cell.port.sent() == self.end.port.accepted()
            && self.end.port.sent() == self.cell.port.accepted()
    }

    /// Whether it is busy: a trigger of it is due; or it isn't lost, and not all was taken that was sent, or one of its
    /// threads goes on.
    pub fn is_busy(&self) -> bool
        ensures { (p : Settings) → HasTriggers p self.now → TellsBusyAt p self.now result }
    {
        keeps_going(
            self.is_trigger_due(),
            self.is_lost,
            self.is_still(),
            self.cell.core.is_alive(),
        )
    }
}
