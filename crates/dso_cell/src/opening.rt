//! The cells of a run before its first entry (`specs/CellOpenings.antt`).
ghost use Rattle.std.specs.Prelude.{ℕ, ◌≡◌, ◌≤◌, ◌<◌, ◌^◌, IfOk, length};
ghost use Rattle.dso_client.specs.Openings.{HasThreads};
ghost use Rattle.dso_law.specs.Settings.{Settings};
ghost use Rattle.dso_machine.specs.Sound.{IsSoundCode};
ghost use Rattle.dso_port.specs.Ports.{IsNew};
ghost use Rattle.dso_session.specs.declared.session.Role.TheVariants as role;
ghost use Rattle.dso_cell.specs.CellOpenings.{AreNewCells, AreNewEnds, AreSettings, IsNewCell, IsNewEnd, IsNewServer, count_in, threads_in};
ghost use Rattle.dso_cell.specs.Meetings.{AllKnow, AllTogether};
ghost use Rattle.dso_cell.specs.CellsOfClusters.{CellsStand, cluster_of};

use crate::{ClientCell, ServerCell, ServerEnd};
use dso_base::{Down, NoMemory, Node, Trigger, Up};
use dso_client::Client;
use dso_log::NodeLog;
use dso_machine::{Code, ThreadBody};
use dso_port::{Port, both_ends};
use dso_server::{Server, Triggers};
use std::alloc::Global;

/// What all cells of a run begin with.
#[derive(Clone, Copy)]
struct Opening<'a> {
    code: &'a Code,
    resident: u32,
    losses: &'a [Trigger],
    breaks: &'a [Trigger],
}

/// How many threads of this client have a body among these.
fn thread_count(bodies: &[ThreadBody], client: u8) -> usize
    ensures { result ≡ count_in client bodies.now }
{
    let mut count = 0;
    for body in bodies {
        if body.thread.client == client {
            count += 1;
        }
    }
    count
}

impl Opening<'_> {
    /// The cell of the client of this number, with its end of its connection.
    fn client_cell(
        &self,
        alloc: Global,
        number: u8,
        port: Port<Up, Down>,
    ) -> Result<ClientCell, NoMemory>
        requires sound { IsSoundCode self.now.code.now }
        requires threads { HasThreads self.now.code.now number (threads_in self.now.code.now number) }
        requires port { IsNew role.Client port }
        ensures new { IfOk result (IsNewCell self.now.code.now self.now.resident number) }
        ensures port { IfOk result (λ cell. cell.port ≡ port) }
    {
        let threads = thread_count(self.code.bodies.as_slice(), number) as u8;
        let core = Client::new(alloc, self.code, number, threads, self.resident)?;
        let log = NodeLog::new(Node::Client(number), alloc);
        Ok(ClientCell {
            number,
            spent: None,
            core,
            log,
            rejoins: 0,
            port,
        })
    }

    /// The server's end of the connection of the client of this number.
    fn server_end(
        &self,
        alloc: Global,
        number: u8,
        port: Port<Down, Up>,
    ) -> Result<ServerEnd, NoMemory>
        requires { IsNew role.Server port }
        ensures new { IfOk result (IsNewEnd self.now.losses.now self.now.breaks.now number) }
        ensures port { IfOk result (λ end. end.port ≡ port) }
    {
        let triggers = Triggers::new(alloc, number, self.losses, self.breaks)?;
        Ok(ServerEnd { port, triggers })
    }

    /// Both ends of the connections of so many clients, by rising number, with the clients' cells.
    fn connections(
        &self,
        alloc: Global,
        clients: u8,
    ) -> Result<(Vec<ClientCell>, Vec<ServerEnd>), NoMemory>
        requires sound { IsSoundCode self.now.code.now }
        requires threads { (c : ℕ) → 1 ≤ c → c ≤ clients → HasThreads self.now.code.now c (threads_in self.now.code.now c) }
        ensures cells { IfOk result (λ made. AreNewCells self.now.code.now self.now.resident 1 made.0.items) }
        ensures ends { IfOk result (λ made. AreNewEnds self.now.losses.now self.now.breaks.now 1 made.1.items) }
        ensures paired { IfOk result (λ made. AllTogether made.0.items made.1.items) }
        ensures all { IfOk result (λ made. length made.0.items ≡ clients) }
    {
        let mut cells = Vec::new(alloc);
        let mut ends = Vec::new(alloc);
        for number in 0..clients {
            let (client, server) = both_ends(alloc)?;
            let cell = self.client_cell(alloc, number + 1, client)?;
            let end = self.server_end(alloc, number + 1, server)?;
            cells.push(cell)?;
            ends.push(end)?;
        }
        Ok((cells, ends))
    }
}

/// The server's cell with its ends of all connections.
fn server_cell(
    alloc: Global,
    code: &Code,
    clients: u8,
    ends: Vec<ServerEnd>,
) -> Result<ServerCell, NoMemory>
    ensures new { IfOk result (IsNewServer code.now clients) }
    ensures ends { IfOk result (λ cell. cell.ends ≡ ends) }
{
    let core = Server::new(alloc, code, clients)?;
    let log = NodeLog::new(Node::Server, alloc);
    Ok(ServerCell {
        spent: None,
        core,
        log,
        ends,
        next: 0,
    })
}

/// All cells of a run of so many clients of this code, each of which is to keep so many objects resident, with these
/// losses and breaks: those of the clients by rising number, and the server's, with a ring up and a ring down of 64
/// places between each client and the server. No entry was made, and both ends of each ring know that it is empty.
///
/// It answers `NoMemory` where an allocation was refused.
#[tactic(auto, using(crate::proofs::new_cells::NewCells::new_cells_stand, crate::proofs::new_cells::NewCells::new_cells_know))]
pub fn cells(
    alloc: Global,
    code: &Code,
    clients: u8,
    resident: u32,
    losses: &[Trigger],
    breaks: &[Trigger],
) -> Result<(Vec<ClientCell>, ServerCell), NoMemory>
    requires sound { IsSoundCode code.now }
    requires threads { (c : ℕ) → 1 ≤ c → c ≤ clients → HasThreads code.now c (threads_in code.now c) }
    ensures stand { IfOk result (λ made. (p : Settings) → AreSettings code.now clients resident losses.now breaks.now p
        → CellsStand (cluster_of code.now p made.0.items made.1.ends.items) made.0.items made.1) }
    ensures known { IfOk result (λ made. AllKnow made.0.items made.1.ends.items) }
    ensures new { IfOk result (λ made. AreNewCells code.now resident 1 made.0.items) }
    ensures server { IfOk result (λ made. IsNewServer code.now clients made.1) }
    ensures ends { IfOk result (λ made. AreNewEnds losses.now breaks.now 1 made.1.ends.items) }
{
    let opening = Opening {
        code,
        resident,
        losses,
        breaks,
    };
    let (cells, ends) = opening.connections(alloc, clients)?;
    let server = server_cell(alloc, code, clients, ends)?;
    Ok((cells, server))
}
