//! A step of the cluster, made by its node (`specs/NodeSteps.antt`).
ghost use Rattle.std.specs.Prelude.{◌≡◌, IfOk, true};
ghost use Rattle.dso_world.specs.ClientSteps.{StandsOpen, Steps};
ghost use Rattle.dso_world.specs.NodeSteps.{StandOpen, StepsAll};
ghost use Rattle.dso_world.specs.Touched.{client_of};
ghost use Rattle.dso_world.specs.WorldSteps.{is_own, slot_of};

use crate::Step;
use crate::client_node::ClientNode;
use crate::client_step::{act, flush, take_down};
use crate::nodes::Nodes;
use crate::server_step::{break_now, lose, take_up};
use dso_base::{Entry, NoMemory};
use dso_class::Program;
use std::alloc::Global;

/// The client that a step is of.
pub(crate) fn client_of(step: Step) -> u8
    ensures { result ≡ client_of (slot_of step) }
{
    match step {
        Step::Act(thread) => thread.client,
        Step::TakeDown(number)
        | Step::Flush(number)
        | Step::TakeUp(number)
        | Step::Lose(number)
        | Step::Break(number) => number,
    }
}

/// The client makes its own step.
fn own_step(
    alloc: Global,
    program: &Program,
    client_node: &mut ClientNode,
    step: Step,
) -> Result<Entry, NoMemory>
    requires own { is_own step ≡ true }
    requires open { StandsOpen program.now (client_of (slot_of step)) (slot_of step) client_node.old }
    ensures { IfOk result (λ entry. Steps program.now (client_of (slot_of step)) (slot_of step) entry client_node.old client_node.new) }
{
    match step {
        Step::Act(thread) => act(alloc, program, client_node, thread),
        Step::TakeDown(number) => take_down(alloc, program, client_node, number),
        Step::Flush(number) => flush(alloc, client_node, number),
        _ => unreachable!(),
    }
}

/// One of the clients makes its own step.
fn client_node_step(
    alloc: Global,
    program: &Program,
    nodes: &mut Nodes,
    step: Step,
) -> Result<Entry, NoMemory>
    requires own { is_own step ≡ true }
    requires open { StandOpen program.now (client_of (slot_of step)) (slot_of step) nodes.old }
    ensures { IfOk result (λ entry. StepsAll program.now (client_of (slot_of step)) (slot_of step) entry nodes.old nodes.new) }
{
    let place = client_of(step) as usize - 1;
    match nodes.client_nodes.get_mut(place) {
        Some(client_node) => own_step(alloc, program, client_node, step),
        None => unreachable!(),
    }
}

/// The step is made by its node.
///
/// It answers `NoMemory` where an allocation was refused.
pub(crate) fn apply(
    alloc: Global,
    program: &Program,
    nodes: &mut Nodes,
    step: Step,
) -> Result<Entry, NoMemory>
    requires { StandOpen program.now (client_of (slot_of step)) (slot_of step) nodes.old }
    ensures { IfOk result (λ entry. StepsAll program.now (client_of (slot_of step)) (slot_of step) entry nodes.old nodes.new) }
{
    match step {
        Step::TakeUp(number) => take_up(alloc, program, nodes, number),
        Step::Lose(number) => lose(alloc, nodes, number),
        Step::Break(number) => break_now(alloc, nodes, number),
        _ => client_node_step(alloc, program, nodes, step),
    }
}
