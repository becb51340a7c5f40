//! The answers to messages that fit (`dso_law/specs/ServerStep.antt`, `specs/Answering.antt`). After `NoMemory` the
//! server is spent.
ghost use Rattle.std.specs.Prelude.{ℕ, ◌≡◌, ◌≤◌, ◌<◌, ◌+◌, ◌^◌, List, false, length, IfOk, OnOk};
ghost use Rattle.dso_base.specs.declared.message.Up.TheVariants as up;
ghost use Rattle.dso_ids.specs.Ids.{first_of_batch};
ghost use Rattle.dso_locks.specs.Locks.{waits};
ghost use Rattle.dso_locks.specs.LockRows.{locks_in};
ghost use Rattle.dso_law.specs.Settings.{Settings};
ghost use Rattle.dso_base.specs.declared.journal.Entry.{Entry};
ghost use Rattle.dso_server.specs.Answering.{AnswersMessage, IsLost, given_by};
ghost use Rattle.dso_server.specs.Fitting.{IsFree};
ghost use Rattle.dso_server.specs.ServerStands.{ServerStands};

use crate::messages::{alone, object_to, tell_changes, tell_locks};
use crate::server::Server;
use crate::{threads, waiters, wakes};
use dso_base::{Down, Level, LockName, NoMemory, ThreadId, Txn, Up};
use std::alloc::Global;

/// Gives the next batch of ids to the client.
pub(crate) fn give_ids(
    alloc: Global,
    server: &mut Server,
    client: u8,
) -> Result<Vec<(u8, Down)>, NoMemory>
    requires { first_of_batch (length server.old.ids) < 2 ^ 63 }
    ensures answers { IfOk result (λ messages. AnswersMessage client up.IdAsk messages.items server.old server.new) }
    ensures given { OnOk result (given_by server.new ≤ given_by server.old + 1) }
{
    let first = server.ids.give(client)?;
    alone(alloc, client, Down::Ids(first))
}

/// Sends the object to the client, which holds it from then on.
pub(crate) fn give_object(
    alloc: Global,
    server: &mut Server,
    client: u8,
    object: u64,
) -> Result<Vec<(u8, Down)>, NoMemory>
    ensures answers { IfOk result (λ messages. AnswersMessage client (up.Fault object) messages.items server.old server.new) }
    ensures given { OnOk result (given_by server.new ≤ given_by server.old + 1) }
{
    let messages = object_to(alloc, client, server.store.object(object))?;
    server.store.hold(alloc, client, object)?;
    Ok(messages)
}

/// The client flushed the object, and doesn't hold it any longer.
pub(crate) fn flush(alloc: Global, server: &mut Server, client: u8, object: u64) -> Vec<(u8, Down)>
    ensures answers { AnswersMessage client (up.Flushed object) result.items server.old server.new }
    ensures given { given_by server.new ≡ given_by server.old }
{
    server.store.unhold(client, object);
    Vec::new(alloc)
}

/// The client requests the lock, which is served.
pub(crate) fn request(
    alloc: Global,
    server: &mut Server,
    client: u8,
    lock: LockName,
    level: Level,
) -> Result<Vec<(u8, Down)>, NoMemory>
    requires { waits client (locks_in server.old.locks lock) ≡ false }
    ensures answers { IfOk result (λ messages. AnswersMessage client (up.Request lock level) messages.items server.old server.new) }
    ensures given { OnOk result (given_by server.new ≤ given_by server.old + 1) }
{
    let told = server.locks.request(alloc, client, lock, level)?;
    tell_locks(alloc, told.as_slice())
}

/// The client gives the lock back, with threads of it that wait; the lock is served.
pub(crate) fn take_back(
    alloc: Global,
    server: &mut Server,
    client: u8,
    lock: LockName,
    threads: &[ThreadId],
) -> Result<Vec<(u8, Down)>, NoMemory>
    ensures answers { IfOk result (λ messages. AnswersMessage client (up.Return lock threads.now) messages.items server.old server.new) }
    ensures given { OnOk result (given_by server.new ≤ given_by server.old + 1) }
{
    waiters::add_all(alloc, &mut server.waiters, lock, threads)?;
    let told = server.locks.returned(alloc, client, lock)?;
    tell_locks(alloc, told.as_slice())
}

/// Applies the client's record: it is acknowledged, its changes go to those that hold what it sets, and those are woken
/// whom it is to wake.
pub(crate) fn commit(
    alloc: Global,
    server: &mut Server,
    client: u8,
    txn: &Txn,
) -> Result<Vec<(u8, Down)>, NoMemory>
    ensures answers { IfOk result (λ messages. AnswersMessage client (up.Commit txn.now) messages.items server.old server.new) }
    ensures given { OnOk result (given_by server.new ≤ given_by server.old + 1) }
{
    server.store.apply(alloc, client, txn)?;
    threads::end(&mut server.threads, txn.thread, txn.ending)?;
    let mut messages = alone(alloc, client, Down::Ack(txn.seq))?;
    tell_changes(
        server.store.others_holding(alloc, client, txn)?,
        &mut messages,
    )?;
    wakes::wake_by_record(alloc, &mut server.waiters, txn, &mut messages)?;
    Ok(messages)
}

/// AnswersMessage the message of the client by its row.
pub(crate) fn answer(
    alloc: Global,
    server: &mut Server,
    client: u8,
    message: &Up,
) -> Result<Vec<(u8, Down)>, NoMemory>
    requires room { given_by server.old < 2 ^ 54 }
    requires free { IsFree client message.now server.old }
    ensures answers { IfOk result (λ messages. AnswersMessage client message.now messages.items server.old server.new) }
    ensures given { OnOk result (given_by server.new ≤ given_by server.old + 1) }
{
    match message {
        Up::IdAsk => give_ids(alloc, server, client),
        Up::Fault(object) => give_object(alloc, server, client, *object),
        Up::Flushed(object) => Ok(flush(alloc, server, client, *object)),
        Up::Request(lock, level) => request(alloc, server, client, *lock, *level),
        Up::Return(lock, threads) => take_back(alloc, server, client, *lock, threads.as_slice()),
        Up::Commit(txn) => commit(alloc, server, client, txn.get()),
    }
}

/// The client is lost: its leases, its requests, its waiters and what it holds are gone, and the queues are served.
pub(crate) fn lost(
    alloc: Global,
    server: &mut Server,
    client: u8,
) -> Result<Vec<(u8, Down)>, NoMemory>
    ensures lost { IfOk result (λ messages. (p : Settings) (es : List Entry) → ServerStands p server.old es → IsLost p client messages.items server.old server.new es) }
    ensures given { OnOk result (given_by server.new ≡ given_by server.old) }
{
    server.lost.insert(client)?;
    server.store.lose(client);
    waiters::drop_client(&mut server.waiters, client);
    let told = server.locks.lose(alloc, client)?;
    tell_locks(alloc, told.as_slice())
}
