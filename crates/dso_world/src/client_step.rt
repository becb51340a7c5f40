//! The steps of a client: a thread acts, a message is taken, an object is flushed (`specs/ClientSteps.antt`).
ghost use Rattle.std.specs.Prelude.{◌≡◌, [], ◌∷◌, IfOk};
ghost use Rattle.dso_base.specs.declared.message.Up.TheVariants as up;
ghost use Rattle.dso_class.specs.declared.program.Program.{Program};
ghost use Rattle.dso_legal.specs.Slots as slot;
ghost use Rattle.dso_world.specs.ClientSteps.{IsMoved, StandsOpen, Steps, event_of};

use crate::client_entry::say;
use crate::client_node::ClientNode;
use crate::entry_draft::EntryDraft;
use dso_base::{Both, Entry, Event, Input, NoMemory, Shared, ThreadId, Up};
use dso_class::Program;
use dso_client::Acted;
use dso_session::Accepted;
use std::alloc::Global;

/// The event of an act; none where the thread only asks.
fn event_of(alloc: Global, acted: Acted) -> Result<Option<Shared<Event>>, NoMemory>
    requires { IsMoved acted }
    ensures { IfOk result (λ event. event ≡ event_of acted) }
{
    match acted {
        Acted::Event(event) => Ok(Some(Shared::new(alloc, event)?)),
        Acted::Asked => Ok(None),
        _ => unreachable!(),
    }
}

/// The message that tells of a flush, alone.
fn flushed_alone(alloc: Global, object: u64) -> Result<Vec<Up>, NoMemory>
    ensures { IfOk result (λ messages. messages.items ≡ up.Flushed object ∷ []) }
{
    let mut messages = Vec::new(alloc);
    messages.push(Up::Flushed(object))?;
    Ok(messages)
}

/// A thread of the client acts: its next request is answered, or what it lacks is asked for.
///
/// It answers `NoMemory` where an allocation was refused.
pub(crate) fn act(
    alloc: Global,
    program: &Program,
    client_node: &mut ClientNode,
    thread: ThreadId,
) -> Result<Entry, NoMemory>
    requires { StandsOpen program.now thread.client (slot.Acts thread) client_node.old }
    ensures { IfOk result (λ entry. Steps program.now thread.client (slot.Acts thread) entry client_node.old client_node.new) }
{
    let (acted, messages) = client_node.client.act(alloc, &program.code, thread.index)?;
    let event = event_of(alloc, acted)?;
    let made = EntryDraft {
        heard: 0,
        input: Input::Act(thread.index),
        event,
    };
    say(alloc, thread.client, client_node, made, messages)
}

/// The client of this number takes the first frame in flight to it: a message, or one that joins its connection again.
///
/// It answers `NoMemory` where an allocation was refused.
pub(crate) fn take_down(
    alloc: Global,
    program: &Program,
    client_node: &mut ClientNode,
    number: u8,
) -> Result<Entry, NoMemory>
    requires { StandsOpen program.now number (slot.TakesDown number) client_node.old }
    ensures { IfOk result (λ entry. Steps program.now number (slot.TakesDown number) entry client_node.old client_node.new) }
{
    match client_node.link.take_down()? {
        Some(Accepted::Up(both, heard)) => {
            let Both::Down(message) = both else {
                unreachable!()
            };
            let messages = client_node.client.take(alloc, &program.code, &message)?;
            let made = EntryDraft::of(heard, Input::TookDown(message));
            say(alloc, number, client_node, made, messages)
        }
        Some(Accepted::Rejoined(_)) => {
            let made = EntryDraft::of(0, Input::Rejoin(number));
            say(alloc, number, client_node, made, Vec::new(alloc))
        }
        Some(Accepted::Again(_)) => unreachable!(),
        Some(Accepted::Gap(_)) => unreachable!(),
        Some(Accepted::OldConnection(_)) => unreachable!(),
        None => unreachable!(),
    }
}

/// The client of this number flushes an object.
///
/// It answers `NoMemory` where an allocation was refused.
pub(crate) fn flush(
    alloc: Global,
    client_node: &mut ClientNode,
    number: u8,
) -> Result<Entry, NoMemory>
    requires { (program : Program) × StandsOpen program number (slot.Flushes number) client_node.old }
    ensures { IfOk result (λ entry. (program : Program) → Steps program number (slot.Flushes number) entry client_node.old client_node.new) }
{
    let Some(object) = client_node.client.flush() else {
        unreachable!()
    };
    let messages = flushed_alone(alloc, object)?;
    let made = EntryDraft::of(0, Input::Flush(object));
    say(alloc, number, client_node, made, messages)
}
