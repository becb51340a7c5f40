//! A server with its ends of the connections of four clients.

use crate::code::code;
use dso_admission::{Admitted, admit};
use dso_base::{Both, Down, NoMemory, Up};
use dso_machine::Code;
use dso_server::{Server, Taken};
use dso_session::Session;
use std::alloc::Global;

/// How many clients there are.
pub const CLIENTS: u8 = 4;

/// How many batches of ids the rows may ask for.
const MOST_BATCHES: u64 = 1000;

/// How many messages the server's ends may send, and how often a connection may break.
const MOST: u64 = 1 << 30;

/// The server, and its end of the connection of each client, the first that of client 1.
#[derive(Drop)]
pub struct Cluster {
    code: Code,
    server: Server,
    sessions: Vec<Session<Both>>,
}

impl Cluster {
    /// At first.
    pub fn new(alloc: Global) -> Result<Cluster, NoMemory> {
        let code = code(alloc)?;
        let server = Server::new(alloc, &code, CLIENTS)?;
        let mut sessions = Vec::new(alloc);
        for _ in 0..CLIENTS {
            sessions.push(Session::server(alloc))?;
        }
        Ok(Cluster {
            code,
            server,
            sessions,
        })
    }

    /// The server's end of the client's connection, None where there is no such client.
    pub fn end(&self, client: u8) -> Option<&Session<Both>> {
        self.sessions.get(usize::from(client.checked_sub(1)?))
    }

    /// What is told of the client's bytes, None where there is no such client or too many batches were given.
    pub fn admit(
        &mut self,
        alloc: Global,
        client: u8,
        bytes: &[u8],
    ) -> Result<Option<(Admitted, Vec<(u8, Down)>)>, NoMemory> {
        if self.server.batches_given() > MOST_BATCHES {
            return Ok(None);
        }
        let Some(place) = client.checked_sub(1) else {
            return Ok(None);
        };
        let Some(session) = self.sessions.get_mut(usize::from(place)) else {
            return Ok(None);
        };
        let told = admit(alloc, &self.code, &mut self.server, session, client, bytes)?;
        Ok(Some(told))
    }

    /// The client's connection breaks.
    pub fn break_now(&mut self, client: u8) {
        let Some(place) = client.checked_sub(1) else {
            return;
        };
        if let Some(session) = self.sessions.get_mut(usize::from(place)) {
            if u64::from(session.epoch()) < MOST {
                session.break_now();
            }
        }
    }

    /// The server's end sends the client a batch of ids.
    pub fn post(&mut self, client: u8, first: u64) -> Result<(), NoMemory> {
        let Some(place) = client.checked_sub(1) else {
            return Ok(());
        };
        if let Some(session) = self.sessions.get_mut(usize::from(place)) {
            if session.sent() < MOST {
                session.send(Both::Down(Down::Ids(first)), 1)?;
            }
        }
        Ok(())
    }

    /// Whether the client was lost.
    pub fn is_lost(&self, client: u8) -> bool {
        self.server.is_lost(client)
    }

    /// How many batches of ids were given.
    pub fn batches_given(&self) -> u64 {
        self.server.batches_given()
    }

    /// What the server makes of a further message of the client, which asks for ids; None where too many were given.
    pub fn asked(&mut self, alloc: Global, client: u8) -> Result<Option<Taken>, NoMemory> {
        if self.server.batches_given() > MOST_BATCHES {
            return Ok(None);
        }
        let (taken, _) = self.server.take(alloc, &self.code, client, &Up::IdAsk)?;
        Ok(Some(taken))
    }
}
