//! What the server sends in an entry (`specs/SentMessages.antt`).
ghost use Rattle.std.specs.Prelude.{◌≡◌, ◌<◌, ◌^◌, [], ◌∷◌, IfOk, OnOk};
ghost use Rattle.dso_server.specs.Sending.{sent_of};
ghost use Rattle.dso_world.specs.Link.{sent_down};
ghost use Rattle.dso_world.specs.NodeSteps.{AreTold, ChangesLine, HasTold, HaveRoom};
ghost use Rattle.dso_world.specs.SentMessages.{clock_after, server_entry};
ghost use Rattle.dso_base.specs.declared.both.Both.TheVariants as both;

use crate::client_entry::clock_after;
use crate::client_node::ClientNode;
use crate::entry_draft::EntryDraft;
use crate::nodes::Nodes;
use dso_base::{Both, Down, Entry, Items, NoMemory, Node, Sent};
use std::alloc::Global;

/// The server sends a message to the client of this number.
fn send_to(
    client_nodes: &mut Vec<ClientNode>,
    number: u8,
    message: Down,
    clock: u64,
) -> Result<(), NoMemory>
    requires there { 0 < number }
    requires room { HaveRoom client_nodes.old.items }
    ensures { OnOk result (ChangesLine number (sent_down (both.Down message) clock) client_nodes.old.items client_nodes.new.items) }
{
    match client_nodes.get_mut(number as usize - 1) {
        Some(client_node) => client_node.link.send_down(Both::Down(message), clock),
        None => Ok(()),
    }
}

/// The server sends a message to a client.
#[tactic(auto, using(crate::proofs::nodes::Told::one_told, crate::proofs::nodes::Told::room_kept))]
fn tell_one(
    client_nodes: &mut Vec<ClientNode>,
    client: u8,
    message: &Down,
    clock: u64,
) -> Result<(), NoMemory>
    requires { HaveRoom client_nodes.old.items }
    ensures told { OnOk result (AreTold clock ((client, message.now) ∷ []) client_nodes.old.items client_nodes.new.items) }
    ensures room { OnOk result (HaveRoom client_nodes.new.items) }
{
    if client == 0 {
        return Ok(());
    }
    send_to(client_nodes, client, message.clone()?, clock)
}

/// The server sends these messages, each to its client.
#[tactic(auto, using(crate::proofs::nodes::Told::none_told, crate::proofs::nodes::Told::more_told))]
fn tell(
    client_nodes: &mut Vec<ClientNode>,
    messages: &[(u8, Down)],
    clock: u64,
) -> Result<(), NoMemory>
    requires { HaveRoom client_nodes.old.items }
    ensures { OnOk result (AreTold clock messages.now client_nodes.old.items client_nodes.new.items) }
{
    match messages {
        [] => Ok(()),
        [message, rest @ ..] => {
            tell_one(client_nodes, message.0, &message.1, clock)?;
            tell(client_nodes, rest, clock)
        }
    }
}

/// These messages, as an entry sends them.
fn to_clients(alloc: Global, messages: Vec<(u8, Down)>) -> Result<Items<Sent>, NoMemory>
    ensures { IfOk result (λ sent. sent ≡ sent_of messages.items) }
{
    let mut sent = Vec::with_capacity(alloc, messages.len())?;
    for (client, message) in messages {
        sent.push(Sent::ToClient(client, message))?;
    }
    Ok(Items::from_vec(sent))
}

/// The server makes its entry, and sends these messages.
///
/// It answers `NoMemory` where an allocation was refused.
pub(crate) fn tell_all(
    alloc: Global,
    nodes: &mut Nodes,
    made: EntryDraft,
    messages: Vec<(u8, Down)>,
) -> Result<Entry, NoMemory>
    requires clock { clock_after nodes.old.clock made.heard < 2 ^ 64 }
    requires room { HaveRoom nodes.old.client_nodes.items }
    ensures entry { IfOk result (λ entry. entry ≡ server_entry nodes.old.clock made messages.items) }
    ensures told { OnOk result (HasTold made messages.items nodes.old nodes.new) }
{
    let clock = clock_after(nodes.clock, made.heard);
    tell(&mut nodes.client_nodes, messages.as_slice(), clock)?;
    nodes.clock = clock;
    Ok(Entry {
        clock,
        node: Node::Server,
        input: made.input,
        sent: to_clients(alloc, messages)?,
        event: made.event,
    })
}
