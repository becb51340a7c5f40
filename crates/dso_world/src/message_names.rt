//! What messages name (`specs/Collections.antt`).
ghost use Rattle.std.specs.List.{list_any};
ghost use Rattle.std.specs.Prelude.{◌≡◌, ◌++◌, OnOk};
ghost use Rattle.dso_base.specs.Naming.{down_names, up_names};
ghost use Rattle.dso_txn.specs.NamedInHand.{AddsNamed};
ghost use Rattle.dso_world.specs.Collections.{message_names, posts_name};

use crate::named_parts::{add_body, add_object, add_record, add_sets};
use dso_base::{Both, Down, NoMemory, Up};
use dso_session::Posted;
use dso_txn::add_monitor;

/// Adds the objects that a message to the server names; one of a flush names none.
fn add_up(message: &Up, into: &mut Vec<u64>) -> Result<(), NoMemory>
    ensures { OnOk result (AddsNamed (up_names message.now) into.old.items into.new.items) }
{
    match message {
        Up::IdAsk => Ok(()),
        Up::Flushed(_) => Ok(()),
        Up::Fault(object) => add_object(*object, into),
        Up::Request(lock, _) => add_monitor(*lock, into),
        Up::Return(lock, _) => add_monitor(*lock, into),
        Up::Commit(record) => add_record(record.get(), into),
    }
}

/// Adds the objects that a message to a client names.
fn add_down(message: &Down, into: &mut Vec<u64>) -> Result<(), NoMemory>
    ensures { OnOk result (AddsNamed (down_names message.now) into.old.items into.new.items) }
{
    match message {
        Down::Ids(_) => Ok(()),
        Down::Ack(_) => Ok(()),
        Down::Object(body) => add_body(body.get(), into),
        Down::Grant(lock, _) => add_monitor(*lock, into),
        Down::Recall(lock) => add_monitor(*lock, into),
        Down::Wake(lock, _) => add_monitor(*lock, into),
        Down::Changes(sets) => add_sets(sets.as_slice(), into),
    }
}

/// Adds the objects that a message of either way names.
fn add_message(message: &Both, into: &mut Vec<u64>) -> Result<(), NoMemory>
    ensures { OnOk result (AddsNamed (message_names message.now) into.old.items into.new.items) }
{
    match message {
        Both::Up(message) => add_up(message, into),
        Both::Down(message) => add_down(message, into),
    }
}

/// Adds the objects that the messages name.
fn add_posts(posts: &[Posted<Both>], into: &mut Vec<u64>) -> Result<(), NoMemory>
    ensures { OnOk result (AddsNamed (λ o. list_any (λ posted. message_names posted.message o) posts.now) into.old.items into.new.items) }
{
    for posted in posts {
        add_message(&posted.message, into)?;
    }
    Ok(())
}

/// Adds the objects that the messages of both parts name.
#[tactic(auto, using(crate::proofs::collecting::Added::posts_added))]
pub(crate) fn add_both_parts(
    first: &[Posted<Both>],
    second: &[Posted<Both>],
    into: &mut Vec<u64>,
) -> Result<(), NoMemory>
    ensures { OnOk result (AddsNamed (posts_name (first.now ++ second.now)) into.old.items into.new.items) }
{
    add_posts(first, into)?;
    add_posts(second, into)
}
