//! The steps of the server: it takes a message of a client, loses it, or breaks its connection
//! (`specs/NodeSteps.antt`).
ghost use Rattle.std.specs.Prelude.{◌≡◌, ◌<◌, List, IfOk, OnOk};
ghost use Rattle.dso_base.specs.declared.journal.Entry.{Entry};
ghost use Rattle.dso_class.specs.declared.program.Program.{Program};
ghost use Rattle.dso_legal.specs.Slots as slot;
ghost use Rattle.dso_world.specs.Link.{cut, taken_up};
ghost use Rattle.dso_world.specs.NodeSteps.{ChangesLine, FollowsAll, HasBreakLeft, Heard, IsHeard, StandOpen, StepsAll, first_up};

use crate::client_node::ClientNode;
use crate::entry_draft::EntryDraft;
use crate::incoming_message::IncomingMessage;
use crate::nodes::Nodes;
use crate::server_entry::tell_all;
use dso_base::{Both, Entry, Input, NoMemory};
use dso_class::Program;
use dso_server::Taken;
use dso_session::Accepted;
use std::alloc::Global;

/// The server takes the first frame of the client of this number, and what it makes of it is answered; None where there
/// is none.
fn take_frame(
    client_nodes: &mut Vec<ClientNode>,
    number: u8,
) -> Result<Option<Accepted<Both>>, NoMemory>
    requires { 0 < number }
    ensures answer { IfOk result (λ answer. answer ≡ first_up number client_nodes.old.items) }
    ensures after { OnOk result (ChangesLine number taken_up client_nodes.old.items client_nodes.new.items) }
{
    match client_nodes.get_mut(number as usize - 1) {
        Some(client_node) => client_node.link.take_up(),
        None => Ok(None),
    }
}

/// The connection of the client of this number breaks.
fn break_line(client_nodes: &mut Vec<ClientNode>, number: u8) -> Result<(), NoMemory>
    requires there { 0 < number }
    requires few { HasBreakLeft number client_nodes.old.items }
    ensures { OnOk result (ChangesLine number cut client_nodes.old.items client_nodes.new.items) }
{
    match client_nodes.get_mut(number as usize - 1) {
        Some(client_node) => client_node.link.break_now(),
        None => Ok(()),
    }
}

/// The server takes a message that came up, and answers it.
fn hear(
    alloc: Global,
    program: &Program,
    nodes: &mut Nodes,
    incoming: IncomingMessage,
) -> Result<Entry, NoMemory>
    requires { IsHeard program.now incoming.client (record { message = incoming.message; clock = incoming.clock }) nodes.old }
    ensures { IfOk result (λ entry. (es : List Entry) → Heard program.now incoming.client (record { message = incoming.message; clock = incoming.clock }) nodes.old es
        → FollowsAll program.now (slot.TakesUp incoming.client) entry nodes.old.server nodes.new es) }
{
    let IncomingMessage {
        client,
        message,
        clock,
    } = incoming;
    let (taken, messages) = nodes.server.take(alloc, &program.code, client, &message)?;
    match taken {
        Taken::Done | Taken::Gone => {
            let made = EntryDraft::of(clock, Input::TookUp(client, message));
            tell_all(alloc, nodes, made, messages)
        }
        Taken::BadMessage(_) => unreachable!(),
    }
}

/// The server takes the first frame in flight from the client of this number: a message, or one that joins the
/// connection again.
///
/// It answers `NoMemory` where an allocation was refused.
pub(crate) fn take_up(
    alloc: Global,
    program: &Program,
    nodes: &mut Nodes,
    number: u8,
) -> Result<Entry, NoMemory>
    requires { StandOpen program.now number (slot.TakesUp number) nodes.old }
    ensures { IfOk result (λ entry. StepsAll program.now number (slot.TakesUp number) entry nodes.old nodes.new) }
{
    match take_frame(&mut nodes.client_nodes, number)? {
        Some(Accepted::Up(both, clock)) => {
            let Both::Up(message) = both else {
                unreachable!()
            };
            let incoming = IncomingMessage {
                client: number,
                message,
                clock,
            };
            hear(alloc, program, nodes, incoming)
        }
        Some(Accepted::Rejoined(_)) => {
            let made = EntryDraft::of(0, Input::Rejoin(number));
            tell_all(alloc, nodes, made, Vec::new(alloc))
        }
        Some(Accepted::Again(_)) => unreachable!(),
        Some(Accepted::Gap(_)) => unreachable!(),
        Some(Accepted::OldConnection(_)) => unreachable!(),
        None => unreachable!(),
    }
}

/// The server loses the client of this number.
///
/// It answers `NoMemory` where an allocation was refused.
pub(crate) fn lose(alloc: Global, nodes: &mut Nodes, number: u8) -> Result<Entry, NoMemory>
    requires { (program : Program) × StandOpen program number (slot.Loses number) nodes.old }
    ensures { IfOk result (λ entry. (program : Program) → StepsAll program number (slot.Loses number) entry nodes.old nodes.new) }
{
    let messages = nodes.server.lose(alloc, number)?;
    let made = EntryDraft::of(0, Input::Lose(number));
    tell_all(alloc, nodes, made, messages)
}

/// The connection of the client of this number breaks.
///
/// It answers `NoMemory` where an allocation was refused.
pub(crate) fn break_now(alloc: Global, nodes: &mut Nodes, number: u8) -> Result<Entry, NoMemory>
    requires { (program : Program) × StandOpen program number (slot.Breaks number) nodes.old }
    ensures { IfOk result (λ entry. (program : Program) → StepsAll program number (slot.Breaks number) entry nodes.old nodes.new) }
{
    break_line(&mut nodes.client_nodes, number)?;
    let made = EntryDraft::of(0, Input::Break(number));
    tell_all(alloc, nodes, made, Vec::new(alloc))
}
