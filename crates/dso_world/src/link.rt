//! The connection of a client (`specs/Link.antt`).
ghost use Rattle.std.specs.Prelude.{◌≡◌, ◌↔◌, ◌≤◌, ◌<◌, ◌+◌, ◌++◌, ◌^◌, [], IfOk, IsTrue, OnOk};
ghost use Rattle.dso_session.specs.Ends.{left_behind, sent_count};
ghost use Rattle.dso_world.specs.Link.{opening_line, sent_up, sent_down, taken_up, taken_down, pumped_up, pumped_down, first_answer, cut};

use crate::pump::{pump, take_first};
use dso_base::{Data, NoMemory};
use dso_session::{Accepted, Frame, Posted, Session};
use std::alloc::Global;
use std::collections::VecDeque;
use std::marker::Model;

/// The connection of a client: its two ends, and the frames in flight up to the server and down to the client.
///
/// Contracts see all of it (`Line`). What an end can give goes to its channel within the call that makes it so. After
/// `NoMemory` a link stands for no connection any more.
#[derive(Drop)]
pub struct Link<M> {
    client: Session<M>,
    server: Session<M>,
    up: VecDeque<Frame<M>>,
    down: VecDeque<Frame<M>>,
}

impl<M> Model for Link<M> {
    ghost use Rattle.dso_world.specs.Link.{IsOrdered, Line};

    ghost Value = { Line M };

    ghost view = { λ link. record { client = link.client; server = link.server; up = link.up.items; down = link.down.items } };

    ghost invariant = { λ link. IsOrdered (record { client = link.client; server = link.server; up = link.up.items; down = link.down.items }) };
}

impl<M: Data + Drop> Link<M> {
    /// The connection at first: nothing was sent.
    pub fn new(alloc: Global) -> Link<M>
        ensures { result ≡ opening_line }
    {
        Link {
            client: Session::client(alloc),
            server: Session::server(alloc),
            up: VecDeque::new(alloc),
            down: VecDeque::new(alloc),
        }
    }

    /// Whether no frame is in flight to the server. It takes no memory.
    pub fn is_up_empty(&self) -> bool
        ensures { IsTrue result ↔ (self.now.up ≡ []) }
    {
        self.up.is_empty()
    }

    /// Whether no frame is in flight to the client. It takes no memory.
    pub fn is_down_empty(&self) -> bool
        ensures { IsTrue result ↔ (self.now.down ≡ []) }
    {
        self.down.is_empty()
    }

    /// How many messages the client sent. It takes no memory.
    pub fn sent_up(&self) -> u64
        ensures { result ≡ sent_count self.now.client }
    {
        self.client.sent()
    }

    /// How many messages the server sent. It takes no memory.
    pub fn sent_down(&self) -> u64
        ensures { result ≡ sent_count self.now.server }
    {
        self.server.sent()
    }

    /// How many messages of the client the server took. It takes no memory.
    pub fn taken_up(&self) -> u64
        ensures { result ≡ self.now.server.accepted }
    {
        self.server.accepted()
    }

    /// How many messages of the server the client took. It takes no memory.
    pub fn taken_down(&self) -> u64
        ensures { result ≡ self.now.client.accepted }
    {
        self.client.accepted()
    }

    /// How often the connection broke. It takes no memory.
    pub fn breaks(&self) -> u32
        ensures { result ≡ self.now.server.epoch }
    {
        self.server.epoch()
    }

    /// The messages that the client sent and the server hasn't taken, in order and in two parts. It takes no memory.
    pub fn left_up(&self) -> (&[Posted<M>], &[Posted<M>])
        ensures { result.0.now ++ result.1.now ≡ left_behind self.now.server.accepted self.now.client }
    {
        self.client.left(self.server.accepted())
    }

    /// The messages that the server sent and the client hasn't taken, in order and in two parts. It takes no memory.
    pub fn left_down(&self) -> (&[Posted<M>], &[Posted<M>])
        ensures { result.0.now ++ result.1.now ≡ left_behind self.now.client.accepted self.now.server }
    {
        self.server.left(self.client.accepted())
    }

    /// The client gives its frames; those of a connection that is broken are dropped.
    fn pump_up(&mut self) -> Result<(), NoMemory>
        ensures { OnOk result (self.new ≡ pumped_up self.old) }
    {
        pump(&mut self.client, &mut self.up)?;
        if self.client.epoch() != self.server.epoch() {
            self.up.clear();
        }
        Ok(())
    }

    /// The server gives its frames.
    fn pump_down(&mut self) -> Result<(), NoMemory>
        ensures { OnOk result (self.new ≡ pumped_down self.old) }
    {
        pump(&mut self.server, &mut self.down)
    }

    /// The client sends a message, with the clock of its entry. It answers `NoMemory` where an allocation was refused.
    pub fn send_up(&mut self, message: M, clock: u64) -> Result<(), NoMemory>
        requires { self.old.client.seen < 2 ^ 63 }
        ensures { OnOk result (self.new ≡ sent_up message clock self.old) }
    {
        self.client.send(message, clock)?;
        self.pump_up()
    }

    /// The server sends a message, with the clock of its entry. It answers `NoMemory` where an allocation was refused.
    pub fn send_down(&mut self, message: M, clock: u64) -> Result<(), NoMemory>
        requires { self.old.server.seen < 2 ^ 63 }
        ensures { OnOk result (self.new ≡ sent_down message clock self.old) }
    {
        self.server.send(message, clock)?;
        self.pump_down()
    }

    /// The server takes the first frame in flight to it, and what it makes of it is answered, None exactly where none
    /// is. It answers `NoMemory` where an allocation was refused.
    pub fn take_up(&mut self) -> Result<Option<Accepted<M>>, NoMemory>
        ensures answer { IfOk result (λ answer. answer ≡ first_answer self.old.up self.old.server) }
        ensures after { OnOk result (self.new ≡ taken_up self.old) }
    {
        let answer = take_first(&mut self.server, &mut self.up);
        self.pump_down()?;
        Ok(answer)
    }

    /// The client takes the first frame in flight to it, and what it makes of it is answered, None exactly where none
    /// is. It answers `NoMemory` where an allocation was refused.
    pub fn take_down(&mut self) -> Result<Option<Accepted<M>>, NoMemory>
        ensures answer { IfOk result (λ answer. answer ≡ first_answer self.old.down self.old.client) }
        ensures after { OnOk result (self.new ≡ taken_down self.old) }
    {
        let answer = take_first(&mut self.client, &mut self.down);
        self.pump_up()?;
        Ok(answer)
    }

    /// The connection breaks, as the server knows: what is in flight is lost. It answers `NoMemory` where an
    /// allocation was refused.
    pub fn break_now(&mut self) -> Result<(), NoMemory>
        requires { self.old.server.epoch + 1 < 2 ^ 32 }
        ensures { OnOk result (self.new ≡ cut self.old) }
    {
        self.server.break_now();
        self.up.clear();
        self.down.clear();
        self.pump_down()
    }
}
