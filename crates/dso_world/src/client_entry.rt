//! What a client sends in an entry (`specs/SentMessages.antt`).
ghost use Rattle.std.specs.Prelude.{◌≡◌, ◌<◌, ◌^◌, map, IfOk, OnOk};
ghost use Rattle.dso_base.specs.declared.journal.Sent.TheVariants as sent;
ghost use Rattle.dso_world.specs.SentMessages.{after_saying, all_sent_up, client_entry, clock_after};

use crate::Link;
use crate::client_node::ClientNode;
use crate::entry_draft::EntryDraft;
use dso_base::{Both, Entry, Items, NoMemory, Node, Sent, Up};
use std::alloc::Global;

/// The client sends these messages over its connection.
pub(crate) fn send_all(link: &mut Link<Both>, messages: &[Up], clock: u64) -> Result<(), NoMemory>
    requires { link.old.client.seen < 2 ^ 63 }
    ensures { OnOk result (link.new ≡ all_sent_up clock messages.now link.old) }
{
    match messages {
        [] => Ok(()),
        [message, rest @ ..] => {
            link.send_up(Both::Up(message.clone()?), clock)?;
            send_all(link, rest, clock)
        }
    }
}

/// These messages, as an entry sends them.
fn to_server(alloc: Global, messages: Vec<Up>) -> Result<Items<Sent>, NoMemory>
    ensures { IfOk result (λ made. made ≡ map sent.ToServer messages.items) }
{
    let mut sent = Vec::with_capacity(alloc, messages.len())?;
    for message in messages {
        sent.push(Sent::ToServer(message))?;
    }
    Ok(Items::from_vec(sent))
}

/// The clock of the next entry.
pub(crate) fn clock_after(last: u64, heard: u64) -> u64
    requires { clock_after last heard < 2 ^ 64 }
    ensures { result ≡ clock_after last heard }
{
    last.max(heard) + 1
}

/// The client of this number makes its entry, and sends these messages.
///
/// It answers `NoMemory` where an allocation was refused.
pub(crate) fn say(
    alloc: Global,
    number: u8,
    client_node: &mut ClientNode,
    made: EntryDraft,
    messages: Vec<Up>,
) -> Result<Entry, NoMemory>
    requires clock { clock_after client_node.old.clock made.heard < 2 ^ 64 }
    requires seen { client_node.old.link.client.seen < 2 ^ 63 }
    ensures entry { IfOk result (λ entry. entry ≡ client_entry number client_node.old.clock made messages.items) }
    ensures after { OnOk result (client_node.new ≡ after_saying made messages.items client_node.old) }
{
    let clock = clock_after(client_node.clock, made.heard);
    send_all(&mut client_node.link, messages.as_slice(), clock)?;
    client_node.clock = clock;
    Ok(Entry {
        clock,
        node: Node::Client(number),
        input: made.input,
        sent: to_server(alloc, messages)?,
        event: made.event,
    })
}
