//! The requests of one lock (`specs/Requests.antt`).
ghost use Rattle.std.specs.Prelude.{◌≡◌, eqb, false, None, Some, IfNone, IfSome, [], ◌∷◌, ◌++◌, OnOk, OnErr};
ghost use Rattle.std.specs.List.{list_any};
ghost use Rattle.dso_law.specs.Granting.{without_client};
ghost use Rattle.dso_locks.specs.Requests.{waiter_of};

use dso_base::{Level, NoMemory};
use std::alloc::Global;
use std::marker::Model;

/// A client's request of a lock at a level.
#[derive(Clone, Copy, Debug, PartialEq, Eq)]
pub struct Request {
    pub client: u8,
    pub level: Level,
}

/// The requests of a lock that are not granted, in the order of their coming. Each client has one at most.
#[derive(Drop)]
pub struct Queue {
    requests: Vec<Request>,
}

impl Model for Queue {
    ghost use Rattle.std.specs.Prelude.{List, map};
    ghost use Rattle.dso_law.specs.Granting.{Waiter};
    ghost use Rattle.dso_locks.specs.Requests.{waiter_of, AreDifferent};

    ghost Value = { List Waiter };

    ghost view = { λ queue. map waiter_of queue.requests.items };

    ghost invariant = { λ queue. AreDifferent (map waiter_of queue.requests.items) };
}

/// Whether one of the requests is the client's.
fn has_request(requests: &[Request], client: u8) -> bool
    ensures { result ≡ list_any (λ request. eqb request.client client) requests.now }
{
    requests.iter().any(|request| request.client == client)
}

impl Queue {
    /// No request.
    pub fn new(alloc: Global) -> Queue
        ensures { result ≡ [] }
    {
        Queue {
            requests: Vec::new(alloc),
        }
    }

    /// Whether the client has a request. It takes no memory.
    pub fn has(&self, client: u8) -> bool
        ensures { result ≡ list_any (λ waiter. eqb waiter.client client) self.now }
    {
        has_request(self.requests.as_slice(), client)
    }

    /// Puts the request at the end. It answers `NoMemory` where an allocation was refused, and the queue is then as
    /// before.
    pub fn add(&mut self, request: Request) -> Result<(), NoMemory>
        requires { list_any (λ waiter. eqb waiter.client request.client) self.old ≡ false }
        ensures ok { OnOk result (self.new ≡ self.old ++ waiter_of request ∷ []) }
        ensures err { OnErr result (self.new ≡ self.old) }
    {
        self.requests.push(request)?;
        Ok(())
    }

    /// The first request, None exactly where there is none; the others are of other clients. It takes no memory.
    pub fn first(&self) -> Option<Request>
        ensures none { IfNone result (self.now ≡ []) }
        ensures first { IfSome result (λ request. self.now ≡ waiter_of request ∷ without_client request.client self.now) }
    {
        match self.requests.as_slice() {
            [first, ..] => Some(*first),
            [] => None,
        }
    }

    /// Takes out the client's request. It takes no memory.
    pub fn drop_client(&mut self, client: u8)
        ensures { self.new ≡ without_client client self.old }
    {
        self.requests.retain(|request| request.client != client);
    }
}
