//! Messages to clients, as a call answers them (`specs/Sending.antt`).
ghost use Rattle.std.specs.Prelude.{◌≡◌, [], ◌∷◌, ◌++◌, IfOk, OnOk};
ghost use Rattle.std.specs.Option.{option_copied};
ghost use Rattle.dso_law.specs.ServerStep.{object_to};
ghost use Rattle.dso_locks.specs.Locks as locks;
ghost use Rattle.dso_server.specs.Sending.{sent_of};
ghost use Rattle.dso_store.specs.Changes as changes;

use dso_base::{Body, Down, Items, NoMemory, Set, Shared};
use dso_locks::Told;
use std::alloc::Global;

/// The message to the client, alone.
pub(crate) fn alone(alloc: Global, client: u8, message: Down) -> Result<Vec<(u8, Down)>, NoMemory>
    ensures { IfOk result (λ messages. messages.items ≡ (client, message) ∷ []) }
{
    let mut messages = Vec::new(alloc);
    messages.push((client, message))?;
    Ok(messages)
}

/// The object to the client, if it is there.
pub(crate) fn object_to(
    alloc: Global,
    client: u8,
    body: Option<&Body>,
) -> Result<Vec<(u8, Down)>, NoMemory>
    ensures { IfOk result (λ messages. sent_of messages.items ≡ object_to client (option_copied body.entry)) }
{
    match body {
        Some(body) => alone(
            alloc,
            client,
            Down::Object(Shared::new(alloc, body.clone()?)?),
        ),
        None => Ok(Vec::new(alloc)),
    }
}

/// Puts the news of a lock at the end.
fn tell_one(told: Told, messages: &mut Vec<(u8, Down)>) -> Result<(), NoMemory>
    ensures { OnOk result (sent_of messages.new.items ≡ sent_of messages.old.items ++ locks.messages_of (told ∷ [])) }
{
    match told {
        Told::Grant(client, lock, level) => messages.push((client, Down::Grant(lock, level)))?,
        Told::Recall(client, lock) => messages.push((client, Down::Recall(lock)))?,
    }
    Ok(())
}

/// The grants and recalls.
pub(crate) fn tell_locks(alloc: Global, all: &[Told]) -> Result<Vec<(u8, Down)>, NoMemory>
    ensures { IfOk result (λ messages. sent_of messages.items ≡ locks.messages_of all.now) }
{
    let mut messages = Vec::new(alloc);
    for told in all {
        tell_one(*told, &mut messages)?;
    }
    Ok(messages)
}

/// Puts the changes for other clients at the end.
pub(crate) fn tell_changes(
    all: Vec<(u8, Vec<Set>)>,
    messages: &mut Vec<(u8, Down)>,
) -> Result<(), NoMemory>
    ensures { OnOk result (sent_of messages.new.items ≡ sent_of messages.old.items ++ changes.messages_of all.items) }
{
    for (client, sets) in all {
        messages.push((client, Down::Changes(Items::from_vec(sets))))?;
    }
    Ok(())
}
