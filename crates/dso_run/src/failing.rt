//! Whether a run that finished has a kept thread that ended by a fault (`specs/RunEnds.antt`).
ghost use Rattle.std.specs.Prelude.{◌≡◌, reverse};
ghost use Rattle.dso_law.specs.Entries.{entries_of};
ghost use Rattle.dso_law.specs.ServerReadings.{is_lost};
ghost use Rattle.dso_base.specs.declared.journal.Node.TheVariants as node;
ghost use Rattle.dso_run.specs.Failing.{fails, fails_kept, is_fault, is_loss, tells_fault};
ghost use Rattle.dso_run.specs.RunEnds.{is_faulty};

use dso_base::{Entry, Event, Input, Node, Request, Shared, ThreadId};
use dso_plain::is_thread;

/// Whether a kept thread of these, one of a client that isn't lost, ended by a fault. It walks the journal once, and
/// once more for each fault of one of these threads.
pub(crate) fn is_faulty(threads: &[ThreadId], entries: &[Entry]) -> bool
    ensures { result ≡ is_faulty threads.now (reverse entries.now) }
{
    for entry in entries {
        if tells_fault(threads, entries, entry) {
            return true;
        }
    }
    false
}

/// Whether a kept thread of these ends by a fault with the entry, one of those entries.
#[tactic(auto, using(crate::proofs::runs::Failures::of_no_fault))]
fn tells_fault(threads: &[ThreadId], entries: &[Entry], entry: &Entry) -> bool
    ensures { result ≡ tells_fault threads.now (reverse entries.now) entry.now }
{
    is_fault(&entry.event) && is_any_kept(threads, entries, entry)
}

/// Whether an event ends its thread by a fault.
fn is_fault(event: &Option<Shared<Event>>) -> bool
    ensures { result ≡ is_fault event.now }
{
    let Some(event) = event else { return false };
    matches!(
        event.get(),
        Event::Act {
            request: Request::End(Some(_)),
            ..
        }
    )
}

/// Whether one of these threads ends by a fault with the entry, and its client isn't lost by those entries.
fn is_any_kept(threads: &[ThreadId], entries: &[Entry], entry: &Entry) -> bool
    ensures { result ≡ tells_fault threads.now (reverse entries.now) entry.now }
{
    for thread in threads {
        if fails_kept(entries, entry, *thread) {
            return true;
        }
    }
    false
}

/// Whether the thread ends by a fault with the entry, and its client isn't lost by these entries.
fn fails_kept(entries: &[Entry], entry: &Entry, thread: ThreadId) -> bool
    ensures { result ≡ fails_kept (reverse entries.now) entry.now thread }
{
    fails(entry, thread) && !is_lost(entries, thread.client)
}

/// Whether the thread ends by a fault with the entry.
fn fails(entry: &Entry, thread: ThreadId) -> bool
    ensures { result ≡ fails thread entry.now }
{
    let Some(event) = &entry.event else {
        return false
    };
    match (&entry.node, event.get()) {
        (
            Node::Client(client),
            Event::Act {
                thread: acting,
                request: Request::End(Some(_)),
                ..
            },
        ) => *client == thread.client && is_thread(thread, *acting),
        _ => false,
    }
}

/// Whether the client was lost.
fn is_lost(entries: &[Entry], client: u8) -> bool
    ensures { result ≡ is_lost client (entries_of node.Server (reverse entries.now)) }
{
    for entry in entries {
        if is_loss(entry, client) {
            return true;
        }
    }
    false
}

/// Whether the server lost the client by the entry.
fn is_loss(entry: &Entry, client: u8) -> bool
    ensures { result ≡ is_loss client entry.now }
{
    match (&entry.node, &entry.input) {
        (Node::Server, Input::Lose(lost)) => *lost == client,
        _ => false,
    }
}
