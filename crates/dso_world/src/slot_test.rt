//! Which steps are open, and whether the run is finished, by the nodes (`dso_legal/specs/Slots.antt`,
//! `specs/SlotTests.antt`).
ghost use Rattle.std.specs.Prelude.{◌≡◌, ◌<◌, ◌&&◌, ◌||◌, List, eqb, not, suc};
ghost use Rattle.dso_base.specs.declared.journal.Entry.{Entry};
ghost use Rattle.dso_class.specs.declared.program.Program.{Program};
ghost use Rattle.dso_session.specs.Ends.{sent_count};
ghost use Rattle.dso_world.specs.Busy.{is_busy};
ghost use Rattle.dso_world.specs.SlotTests.{TellsBusy, TellsDue, TellsFinished, TellsOpen, TellsOpenAt};
ghost use Rattle.dso_world.specs.ClientSteps.{IsJournal};
ghost use Rattle.dso_world.specs.NodesStand.{NodesStand};
ghost use Rattle.dso_world.specs.Touched.{client_of};
ghost use Rattle.dso_world.specs.WorldSteps.{settings_of, slot_of};

use crate::client_node::ClientNode;
use crate::node_step::client_of;
use crate::nodes::Nodes;
use crate::{Link, Step};
use dso_base::Both;
use dso_class::Program;
use dso_server::Server;

/// Whether a loss of the client is due, and whether a break of its connection is.
fn due(number: u8, server: &Server, client_node: &ClientNode) -> (bool, bool)
    ensures { (program : Program) → TellsDue program number server.now client_node.now result.0 result.1 }
{
    let is_lost = server.is_lost(number);
    let taken = client_node.link.taken_up();
    let broke = client_node.link.breaks();
    let is_loss_due = client_node.triggers.is_loss_due(taken, is_lost);
    let is_break_due = client_node
        .triggers
        .is_break_due(taken, is_lost, is_loss_due, broke);
    (is_loss_due, is_break_due)
}

/// Whether one of the two is due.
fn is_either(due: (bool, bool)) -> bool
    ensures { result ≡ (due.0 || due.1) }
{
    due.0 || due.1
}

/// Whether the server can take of a client where a frame is in flight and nothing is due.
fn can_take(is_due: bool, is_empty: bool) -> bool
    ensures { result ≡ (not is_due && not is_empty) }
{
    !is_due && !is_empty
}

/// Whether the step of the client of this number is open.
fn is_open_at(number: u8, server: &Server, client_node: &ClientNode, step: Step) -> bool
    requires { number ≡ client_of (slot_of step) }
    ensures { (program : Program) → TellsOpenAt program number server.now client_node.now step result }
{
    match step {
        Step::Act(thread) => client_node.client.enabled(thread.index),
        Step::TakeDown(_) => !client_node.link.is_down_empty(),
        Step::Flush(_) => client_node.client.may_flush(),
        Step::TakeUp(_) => can_take(
            is_either(due(number, server, client_node)),
            client_node.link.is_up_empty(),
        ),
        Step::Lose(_) => due(number, server, client_node).0,
        Step::Break(_) => due(number, server, client_node).1,
    }
}

/// Whether the step is open.
pub(crate) fn is_open(nodes: &Nodes, step: Step) -> bool
    ensures { (program : Program) → TellsOpen program nodes.now step result }
{
    let number = client_of(step);
    if number == 0 {
        return false;
    }
    match nodes.client_nodes.get(number as usize - 1) {
        Some(client_node) => is_open_at(number, &nodes.server, client_node, step),
        None => false,
    }
}

/// Whether all messages of both ends were taken.
fn is_quiet(link: &Link<Both>) -> bool
    ensures { result ≡ (eqb (sent_count link.now.client) link.now.server.accepted && eqb (sent_count link.now.server) link.now.client.accepted) }
{
    link.sent_up() == link.taken_up() && link.sent_down() == link.taken_down()
}

/// Whether a trigger is due, or a client isn't lost, and has a message in flight or a thread that hasn't ended.
fn keeps_going(is_due: bool, is_lost: bool, is_quiet: bool, is_alive: bool) -> bool
    ensures { result ≡ (is_due || (not is_lost && (not is_quiet || is_alive))) }
{
    is_due || (!is_lost && (!is_quiet || is_alive))
}

/// Whether the client of this number keeps the run going.
fn is_busy(number: u8, server: &Server, client_node: &ClientNode) -> bool
    ensures { (program : Program) → TellsBusy program number server.now client_node.now result }
{
    keeps_going(
        is_either(due(number, server, client_node)),
        server.is_lost(number),
        is_quiet(&client_node.link),
        client_node.client.is_alive(),
    )
}

/// Whether the client at this place keeps the run going.
fn is_busy_at(program: &Program, nodes: &Nodes, place: u8) -> bool
    requires within { place < program.now.clients }
    requires fits { place < 255 }
    ensures { (es : List Entry) → IsJournal program.now es → NodesStand program.now nodes.now es → result ≡ is_busy (settings_of program.now) (suc place) es }
{
    match nodes.client_nodes.get(place as usize) {
        Some(client_node) => is_busy(place + 1, &nodes.server, client_node),
        None => false,
    }
}

/// Whether the run is finished: no client keeps it going.
pub(crate) fn is_finished(program: &Program, nodes: &Nodes) -> bool
    ensures { TellsFinished program.now nodes.now result }
{
    for place in 0..program.clients {
        if is_busy_at(program, nodes, place) {
            return false;
        }
    }
    true
}
