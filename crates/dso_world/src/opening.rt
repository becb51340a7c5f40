//! A cluster before its first step (`specs/NodesStand.antt`).
ghost use Rattle.std.specs.Prelude.{◌≡◌, ◌++◌, [], IfOk, OnOk, eqb, filter, flat_map, length, map};
ghost use Rattle.dso_class.specs.Sound.{IsSoundProgram};
ghost use Rattle.dso_law.specs.Settings.{up_to};
ghost use Rattle.dso_legal.specs.Slots.{client_slots, slots};
ghost use Rattle.dso_world.specs.AskedAgain.{AskFirst};
ghost use Rattle.dso_world.specs.NodesStand.{AreClientNodes, ClientNodeStands, NodesStand};
ghost use Rattle.dso_world.specs.StepPlaces.{AreOwnOf};
ghost use Rattle.dso_world.specs.WorldStands.{OpenStepsStand};
ghost use Rattle.dso_world.specs.WorldSteps.{settings_of, slot_of};

use crate::asked_again::next_request;
use crate::asking_threads::AskingThreads;
use crate::client_node::ClientNode;
use crate::nodes::Nodes;
use crate::open_steps::OpenSteps;
use crate::slot_test::{is_finished, is_open};
use crate::step_table::{OwnSteps, StepTable};
use crate::{Chooser, Link, Step};
use dso_base::{NoMemory, ThreadId};
use dso_class::Program;
use dso_client::Client;
use dso_server::{Server, Triggers};
use std::alloc::Global;

/// How many of the threads are of the client of this number.
fn thread_count(threads: &[ThreadId], number: u8) -> usize
    ensures { result ≡ length (filter (λ t. eqb t.client number) threads.now) }
{
    let mut count = 0;
    for thread in threads {
        if thread.client == number {
            count += 1;
        }
    }
    count
}

/// The client of this number, with its connection.
fn client_node(alloc: Global, program: &Program, number: u8) -> Result<ClientNode, NoMemory>
    requires { IsSoundProgram program.now }
    ensures { IfOk result (λ client_node. ClientNodeStands program.now number client_node []) }
{
    let threads = thread_count(program.threads.as_slice(), number) as u8;
    let client = Client::new(alloc, &program.code, number, threads, program.resident)?;
    let losses = program.losses.as_slice();
    let breaks = program.breaks.as_slice();
    let triggers = Triggers::new(alloc, number, losses, breaks)?;
    Ok(ClientNode {
        client,
        link: Link::new(alloc),
        clock: 0,
        triggers,
    })
}

/// All clients, by rising number.
fn client_nodes(alloc: Global, program: &Program) -> Result<Vec<ClientNode>, NoMemory>
    requires { IsSoundProgram program.now }
    ensures { IfOk result (λ client_nodes. AreClientNodes program.now program.now.clients client_nodes.items) }
{
    let mut client_nodes = Vec::new(alloc);
    for number in 0..program.clients {
        client_nodes.push(client_node(alloc, program, number + 1)?)?;
    }
    Ok(client_nodes)
}

/// The nodes of a sound program's cluster before its first step.
pub(crate) fn nodes(alloc: Global, program: &Program) -> Result<Nodes, NoMemory>
    requires { IsSoundProgram program.now }
    ensures { IfOk result (λ nodes. NodesStand program.now nodes []) }
{
    let client_nodes = client_nodes(alloc, program)?;
    let server = Server::new(alloc, &program.code, program.clients)?;
    Ok(Nodes {
        client_nodes,
        server,
        clock: 0,
    })
}

/// The steps of the client of this number: its threads' acts, taking a message, flushing.
fn add_own(steps: &mut Vec<Step>, program: &Program, number: u8) -> Result<(), NoMemory>
    ensures { OnOk result (map slot_of steps.new.items ≡ map slot_of steps.old.items ++ client_slots (settings_of program.now) number) }
{
    for thread in program.threads.as_slice() {
        if thread.client == number {
            steps.push(Step::Act(*thread))?;
        }
    }
    steps.push(Step::TakeDown(number))?;
    steps.push(Step::Flush(number))?;
    Ok(())
}

/// The own steps of all clients, in the order of their slots, and where those of each stand.
fn own_steps(alloc: Global, program: &Program) -> Result<(Vec<Step>, Vec<OwnSteps>), NoMemory>
    ensures listed { IfOk result (λ made. map slot_of made.0.items ≡ flat_map (client_slots (settings_of program.now)) (up_to program.now.clients)) }
    ensures own { IfOk result (λ made. AreOwnOf (settings_of program.now) program.now.clients made.1.items) }
{
    let mut steps = Vec::new(alloc);
    let mut own = Vec::new(alloc);
    for number in 0..program.clients {
        let begin = steps.len();
        add_own(&mut steps, program, number + 1)?;
        let end = steps.len();
        own.push(OwnSteps { begin, end })?;
    }
    Ok((steps, own))
}

/// All steps of the cluster of a sound program, in the order of their slots.
fn steps(alloc: Global, program: &Program) -> Result<StepTable, NoMemory>
    requires { IsSoundProgram program.now }
    ensures { IfOk result (λ steps. map slot_of steps ≡ slots (settings_of program.now)) }
{
    let (mut steps, own) = own_steps(alloc, program)?;
    let behind = steps.len();
    for number in 0..program.clients {
        steps.push(Step::TakeUp(number + 1))?;
    }
    for number in 0..program.clients {
        steps.push(Step::Lose(number + 1))?;
        steps.push(Step::Break(number + 1))?;
    }
    Ok(StepTable::new(steps, own, behind))
}

/// The threads by what they ask first.
fn asking(alloc: Global, program: &Program, nodes: &Nodes) -> Result<AskingThreads, NoMemory>
    ensures { IfOk result (AskFirst nodes.now program.now.threads) }
{
    let mut asking = AskingThreads::new(alloc, program.clients)?;
    for thread in program.threads.as_slice() {
        asking.put_in(*thread, next_request(nodes, *thread));
    }
    Ok(asking)
}

/// The open steps of a sound program's cluster before its first step.
pub(crate) fn open_steps(
    alloc: Global,
    program: &Program,
    nodes: &Nodes,
) -> Result<OpenSteps, NoMemory>
    requires sound { IsSoundProgram program.now }
    requires stands { NodesStand program.now nodes.now [] }
    ensures { IfOk result (λ open_steps. OpenStepsStand program.now open_steps []) }
{
    let asking = asking(alloc, program, nodes)?;
    let steps = steps(alloc, program)?;
    let mut chooser = Chooser::new(alloc, steps.len())?;
    let all = steps.as_slice();
    for place in 0..all.len() {
        chooser.set(place, is_open(nodes, all[place]));
    }
    Ok(OpenSteps {
        steps,
        chooser,
        asking,
        is_finished: is_finished(program, nodes),
    })
}
