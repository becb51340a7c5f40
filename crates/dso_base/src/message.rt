//! Messages up and down, between a client and the server.
use crate::{Body, Data, Items, Level, LockName, Same, Set, Shared, ThreadId, Txn};

/// A message from a client to the server.
#[derive(Clone, Debug, Drop)]
pub enum Up {
    /// Asks for a batch of ids.
    IdAsk,
    /// Asks for an object.
    Fault(u64),
    /// The object was dropped from the client's copies.
    Flushed(u64),
    /// Asks for a lease of the lock.
    Request(LockName, Level),
    /// Gives the lease back, with the threads that wait there unmarked.
    Return(LockName, Items<ThreadId>),
    /// A record to be applied.
    Commit(Shared<Txn>),
}

/// A message from the server to a client.
#[derive(Clone, Debug, Drop)]
pub enum Down {
    /// A batch of 256 ids, of which this is the first.
    Ids(u64),
    /// An object that was asked for.
    Object(Shared<Body>),
    /// The lease of the lock.
    Grant(LockName, Level),
    /// Wants the lease back.
    Recall(LockName),
    /// The record of this number was applied.
    Ack(u64),
    /// What another client's record changed in the objects that this client holds.
    Changes(Items<Set>),
    /// The waiting thread was notified.
    Wake(LockName, ThreadId),
}

impl Data for Up {
    ghost use Rattle.std.proofs.Common.{rules};

    ghost faithful = { Prim.search rules };
}

impl Data for Down {
    ghost use Rattle.std.proofs.Common.{rules};

    ghost faithful = { Prim.search rules };
}

impl Same for Up {
    fn same(&self, other: &Self) -> bool {
        match (self, other) {
            (Up::IdAsk, Up::IdAsk) => true,
            (Up::Fault(object), Up::Fault(that)) => object == that,
            (Up::Flushed(object), Up::Flushed(that)) => object == that,
            (Up::Request(lock, level), Up::Request(name, wanted)) => lock == name
                && level == wanted,
            (Up::Return(lock, threads), Up::Return(name, others)) => lock == name
                && threads.same(others),
            (Up::Commit(txn), Up::Commit(that)) => txn.same(that),
            _ => false,
        }
    }
}

impl Same for Down {
    fn same(&self, other: &Self) -> bool {
        match (self, other) {
            (Down::Ids(first), Down::Ids(that)) => first == that,
            (Down::Object(body), Down::Object(that)) => body.same(that),
            (Down::Grant(lock, level), Down::Grant(name, given)) => lock == name && level == given,
            (Down::Recall(lock), Down::Recall(name)) => lock == name,
            (Down::Ack(number), Down::Ack(that)) => number == that,
            (Down::Changes(sets), Down::Changes(others)) => sets.same(others),
            (Down::Wake(lock, thread), Down::Wake(name, that)) => lock == name && thread == that,
            _ => false,
        }
    }
}
