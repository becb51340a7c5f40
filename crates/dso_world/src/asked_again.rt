//! Which steps are asked again after an entry whether they are open (`specs/AskedAgain.antt`).
ghost use Rattle.std.specs.Int.{bit_at};
ghost use Rattle.std.specs.Prelude.{◌≡◌, ◌<◌, ℕ, true};
ghost use Rattle.dso_base.specs.declared.lock.ThreadId.{ThreadId};
ghost use Rattle.dso_class.specs.declared.program.Program.{Program};
ghost use Rattle.dso_open_law.specs.TouchedThreads.{acts};
ghost use Rattle.dso_world.specs.AskedAgain.{OthersAreSpared, TellsActor, TellsNext};

use crate::asking_threads::AskingThreads;
use crate::bits::with_bit;
use crate::nodes::Nodes;
use crate::touched_threads::Touches;
use dso_base::{Entry, Event, Request, ThreadId};

/// An entry that was made: the nodes with it, which threads asked for what before it, and what the thread asks next that
/// acts by it.
#[derive(Clone, Copy)]
pub(crate) struct EntryMade<'a> {
    pub nodes: &'a Nodes,
    pub entry: &'a Entry,
    pub asking: &'a AskingThreads,
    pub next: Option<Request>,
}

/// What the thread asks next; None where it has ended, or there is no such thread.
pub(crate) fn next_request(nodes: &Nodes, thread: ThreadId) -> Option<Request>
    ensures { (program : Program) → TellsNext program nodes.now thread result }
{
    if thread.client == 0 {
        return None;
    }
    match nodes.client_nodes.get(thread.client as usize - 1) {
        Some(client_node) => client_node.client.next_request(thread.index),
        None => None,
    }
}

/// What the thread asks next that acts by the entry; None where none does.
pub(crate) fn next_of_actor(nodes: &Nodes, entry: &Entry) -> Option<Request>
    ensures { (program : Program) → TellsActor program nodes.now entry.now.event result }
{
    match &entry.event {
        Some(event) => match event.get() {
            Event::Act { thread, .. } => next_request(nodes, *thread),
            Event::Lost(_) => None,
        },
        None => None,
    }
}

/// These threads, and the one that acts by the entry.
fn with_actor(threads: u64, entry: &Entry) -> u64
    ensures others { (i : ℕ) → bit_at threads i ≡ 1 → bit_at result i ≡ 1 }
    ensures actor { (t : ThreadId) → acts t entry.now.event ≡ true → t.index < 64 → bit_at result t.index ≡ 1 }
{
    match &entry.event {
        Some(event) => match event.get() {
            Event::Act { thread, .. } => with_bit(threads, thread.index as u32),
            Event::Lost(_) => threads,
        },
        None => threads,
    }
}

/// The threads of the client that are asked again after an entry of it whether they may act, a bit for each: the one that
/// acts, and those that ask for a topic of a bucket that the entry touches.
pub(crate) fn threads_asked_again(made: &EntryMade<'_>, number: u8) -> u64
    requires { (program : Program) → TellsActor program made.now.nodes.now made.now.entry.now.event made.now.next }
    ensures { OthersAreSpared made.now.asking.now made.now.nodes.now made.now.entry.now number result }
{
    let touches = Touches::of(made.entry, made.next);
    with_actor(made.asking.asking(number, touches.buckets()), made.entry)
}
