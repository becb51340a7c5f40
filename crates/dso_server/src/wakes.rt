//! Those whom a record wakes (`dso_law/specs/ServerWaiters.antt`).
ghost use Rattle.std.specs.Prelude.{◌≡◌, [], ◌∷◌, ◌++◌, OnOk};
ghost use Rattle.dso_base.specs.declared.record.Choice.TheVariants as choice;
ghost use Rattle.dso_law.specs.ServerWaiters.{first_only, lists_after, lists_noted, waiters_woken, wake_each, wakes, wakes_of, wakes_timed_out};
ghost use Rattle.dso_server.specs.Sending.{sent_of};
ghost use Rattle.dso_server.specs.Waiters.{lists_in, lists_timed_out, lists_woken};

use crate::waiters::{Waiters, move_out, pick, remove};
use dso_base::{Choice, Down, Ending, LockName, NoMemory, Note, ThreadId, Txn};
use std::alloc::Global;

/// Puts the message that wakes the thread at the end.
fn wake(lock: LockName, thread: ThreadId, messages: &mut Vec<(u8, Down)>) -> Result<(), NoMemory>
    ensures { OnOk result (sent_of messages.new.items ≡ sent_of messages.old.items ++ wake_each lock (thread ∷ [])) }
{
    messages.push((thread.client, Down::Wake(lock, thread)))?;
    Ok(())
}

/// Wakes each of the threads.
fn wake_each(
    lock: LockName,
    threads: &[ThreadId],
    messages: &mut Vec<(u8, Down)>,
) -> Result<(), NoMemory>
    ensures { OnOk result (sent_of messages.new.items ≡ sent_of messages.old.items ++ wake_each lock threads.now) }
{
    for thread in threads {
        wake(lock, *thread, messages)?;
    }
    Ok(())
}

/// Wakes the first of the list of the lock, if there is one.
fn wake_first(
    waiters: &mut Waiters,
    lock: LockName,
    messages: &mut Vec<(u8, Down)>,
) -> Result<(), NoMemory>
    ensures sends { OnOk result (sent_of messages.new.items ≡ sent_of messages.old.items ++ wake_each lock (first_only (lists_in waiters.old lock))) }
    ensures lists { lists_in waiters.new ≡ lists_after lock choice.There (lists_in waiters.old) }
{
    match pick(waiters, lock) {
        Some(thread) => wake(lock, thread, messages),
        None => Ok(()),
    }
}

/// Wakes the whole list of the lock.
fn wake_list(
    alloc: Global,
    waiters: &mut Waiters,
    lock: LockName,
    messages: &mut Vec<(u8, Down)>,
) -> Result<(), NoMemory>
    ensures sends { OnOk result (sent_of messages.new.items ≡ sent_of messages.old.items ++ wake_each lock (lists_in waiters.old lock)) }
    ensures lists { lists_in waiters.new ≡ lists_after lock choice.All (lists_in waiters.old) }
{
    let threads = move_out(alloc, waiters, lock);
    wake_each(lock, threads.as_slice(), messages)
}

/// Wakes those whom the notification is to wake.
fn wake_noted(
    alloc: Global,
    waiters: &mut Waiters,
    note: Note,
    messages: &mut Vec<(u8, Down)>,
) -> Result<(), NoMemory>
    ensures sends { OnOk result (sent_of messages.new.items ≡ sent_of messages.old.items ++ wake_each note.lock (waiters_woken note.choice (lists_in waiters.old note.lock))) }
    ensures lists { OnOk result (lists_in waiters.new ≡ lists_after note.lock note.choice (lists_in waiters.old)) }
{
    match note.choice {
        Choice::There => wake_first(waiters, note.lock, messages),
        Choice::All => wake_list(alloc, waiters, note.lock, messages),
        Choice::Here(_) => Ok(()),
    }
}

/// Wakes those whom the notifications are to wake, one notification after the other.
fn wake_all(
    alloc: Global,
    waiters: &mut Waiters,
    notes: &[Note],
    messages: &mut Vec<(u8, Down)>,
) -> Result<(), NoMemory>
    ensures sends { OnOk result (sent_of messages.new.items ≡ sent_of messages.old.items ++ wakes notes.now (lists_in waiters.old)) }
    ensures lists { OnOk result (lists_in waiters.new ≡ lists_noted notes.now (lists_in waiters.old)) }
{
    for note in notes {
        wake_noted(alloc, waiters, *note, messages)?;
    }
    Ok(())
}

/// Wakes the thread where its record ends by a timeout and it stands in the list of that lock.
fn wake_timed_out(
    waiters: &mut Waiters,
    thread: ThreadId,
    ending: Ending,
    messages: &mut Vec<(u8, Down)>,
) -> Result<(), NoMemory>
    ensures sends { OnOk result (sent_of messages.new.items ≡ sent_of messages.old.items ++ wakes_timed_out thread ending (lists_in waiters.old)) }
    ensures lists { OnOk result (lists_in waiters.new ≡ lists_timed_out thread ending (lists_in waiters.old)) }
{
    if let Ending::Timeout(lock) = ending {
        if remove(waiters, lock, thread) {
            wake(lock, thread, messages)?;
        }
    }
    Ok(())
}

/// Wakes those whom the record is to wake: by its notifications, and then the thread of a timeout.
pub(crate) fn wake_by_record(
    alloc: Global,
    waiters: &mut Waiters,
    txn: &Txn,
    messages: &mut Vec<(u8, Down)>,
) -> Result<(), NoMemory>
    ensures sends { OnOk result (sent_of messages.new.items ≡ sent_of messages.old.items ++ wakes_of txn.now (lists_in waiters.old)) }
    ensures lists { OnOk result (lists_in waiters.new ≡ lists_woken txn.now (lists_in waiters.old)) }
{
    wake_all(alloc, waiters, txn.notes.as_slice(), messages)?;
    wake_timed_out(waiters, txn.thread, txn.ending, messages)
}
