//! What an entry makes of the open steps (`specs/StepUpdates.antt`).
ghost use Rattle.std.specs.Prelude.{◌≡◌, ◌+◌, ◌<◌, ◌^◌, Some, length, slice_get};
ghost use Rattle.dso_class.specs.declared.program.Program.{Program};
ghost use Rattle.dso_world.specs.AskedAgain.{IsAmong, Settles, TellsActor};
ghost use Rattle.dso_world.specs.StepPlaces.{IsOwnOf};
ghost use Rattle.dso_world.specs.StepUpdates.{Follows, IsGoing, IsSentTo, IsServedBy, IsServedOf, KeepsRound, Marks, Tells};
ghost use Rattle.dso_world.specs.Touched.{client_in};

use crate::asked_again::{EntryMade, next_of_actor, threads_asked_again};
use crate::bits::{first_bit, without_bit};
use crate::nodes::Nodes;
use crate::open_steps::OpenSteps;
use crate::slot_test::{is_finished, is_open};
use crate::step_table::StepTable;
use crate::{Chooser, Step};
use dso_base::{Entry, Input, Node, Sent, ThreadId};
use dso_class::Program;

/// The client that what the server takes in is of.
fn client_in(input: &Input) -> Option<u8>
    ensures { result ≡ client_in input.now }
{
    match input {
        Input::TookUp(number, _) => Some(*number),
        Input::Lose(number) => Some(*number),
        Input::Break(number) => Some(*number),
        Input::Rejoin(number) => Some(*number),
        _ => None,
    }
}

/// Tells anew whether the slot of the step at this place is open.
fn mark_place(nodes: &Nodes, steps: &StepTable, place: usize, chooser: &mut Chooser)
    requires { length steps.now ≡ length chooser.old.flags }
    ensures { Tells nodes.now steps.now (λ at. at ≡ place) chooser.old chooser.new }
{
    match steps.get(place) {
        Some(step) => chooser.set(place, is_open(nodes, step)),
        None => {}
    }
}

/// Tells anew whether the slot of the step is open.
fn mark_step(nodes: &Nodes, steps: &StepTable, step: Step, chooser: &mut Chooser)
    requires { length steps.now ≡ length chooser.old.flags }
    ensures { Tells nodes.now steps.now (λ at. slice_get steps.now at ≡ Some step) chooser.old chooser.new }
{
    match steps.place_of(step) {
        Some(place) => mark_place(nodes, steps, place, chooser),
        None => {}
    }
}

/// Tells anew whether these threads of the client may act.
fn mark_threads(nodes: &Nodes, steps: &StepTable, number: u8, threads: u64, chooser: &mut Chooser)
    requires { length steps.now ≡ length chooser.old.flags }
    ensures { Tells nodes.now steps.now (IsAmong number threads steps.now) chooser.old chooser.new }
{
    let mut left = threads;
    while left != 0 {
        let index = first_bit(left);
        let thread = ThreadId {
            client: number,
            index: index as u8,
        };
        mark_step(nodes, steps, Step::Act(thread), chooser);
        left = without_bit(left, index);
    }
}

/// Tells anew which of the client's own slots are open, after an entry of it: of its threads only those are asked that the
/// entry touches, by what they ask next.
fn mark_own(made: &EntryMade<'_>, steps: &StepTable, number: u8, chooser: &mut Chooser)
    requires same { length steps.now ≡ length chooser.old.flags }
    requires next { (program : Program) → TellsActor program made.now.nodes.now made.now.entry.now.event made.now.next }
    ensures { Settles made.now.asking.now made.now.nodes.now made.now.entry.now steps.now (IsOwnOf number steps.now) chooser.old chooser.new }
{
    mark_step(made.nodes, steps, Step::TakeDown(number), chooser);
    mark_step(made.nodes, steps, Step::Flush(number), chooser);
    let threads = threads_asked_again(made, number);
    mark_threads(made.nodes, steps, number, threads, chooser);
}

/// Tells anew what the client can take, and what the server can do with it.
fn mark_served(nodes: &Nodes, steps: &StepTable, number: u8, chooser: &mut Chooser)
    requires { length steps.now ≡ length chooser.old.flags }
    ensures { Tells nodes.now steps.now (IsServedOf number steps.now) chooser.old chooser.new }
{
    mark_step(nodes, steps, Step::TakeDown(number), chooser);
    mark_step(nodes, steps, Step::TakeUp(number), chooser);
    mark_step(nodes, steps, Step::Lose(number), chooser);
    mark_step(nodes, steps, Step::Break(number), chooser);
}

/// So of the client that what the server takes in is of.
fn mark_input(nodes: &Nodes, steps: &StepTable, input: &Input, chooser: &mut Chooser)
    requires { length steps.now ≡ length chooser.old.flags }
    ensures { Tells nodes.now steps.now (IsServedBy input.now steps.now) chooser.old chooser.new }
{
    match client_in(input) {
        Some(number) => mark_served(nodes, steps, number, chooser),
        None => {}
    }
}

/// Tells anew what the client can take that the message goes to, if it goes to one.
fn mark_message(nodes: &Nodes, steps: &StepTable, message: &Sent, chooser: &mut Chooser)
    requires { length steps.now ≡ length chooser.old.flags }
    ensures { Tells nodes.now steps.now (IsGoing message.now steps.now) chooser.old chooser.new }
{
    match message {
        Sent::ToClient(number, _) => mark_step(nodes, steps, Step::TakeDown(*number), chooser),
        Sent::ToServer(_) => {}
    }
}

/// So of each of the messages.
fn mark_sent(nodes: &Nodes, steps: &StepTable, sent: &[Sent], chooser: &mut Chooser)
    requires { length steps.now ≡ length chooser.old.flags }
    ensures { Tells nodes.now steps.now (IsSentTo sent.now steps.now) chooser.old chooser.new }
{
    for message in sent {
        mark_message(nodes, steps, message, chooser);
    }
}

/// The flags of the slots that the entry may open or close are those that the nodes tell. No other slot is looked at.
fn mark(made: &EntryMade<'_>, steps: &StepTable, chooser: &mut Chooser)
    requires same { length steps.now ≡ length chooser.old.flags }
    requires next { (program : Program) → TellsActor program made.now.nodes.now made.now.entry.now.event made.now.next }
    ensures flags { (program : Program) → Marks program made.now.asking.now made.now.nodes.now made.now.entry.now steps.now chooser.old chooser.new }
    ensures round { KeepsRound chooser.old chooser.new }
{
    match made.entry.node {
        Node::Server => {
            mark_input(made.nodes, steps, &made.entry.input, chooser);
            mark_sent(made.nodes, steps, made.entry.sent.as_slice(), chooser);
        }
        Node::Client(number) => {
            mark_own(made, steps, number, chooser);
            mark_step(made.nodes, steps, Step::TakeUp(number), chooser);
        }
    }
}

/// The open steps after the entry, which was made at this place.
pub(crate) fn follow(
    program: &Program,
    nodes: &Nodes,
    entry: &Entry,
    place: usize,
    open_steps: &mut OpenSteps,
)
    requires same { length open_steps.old.steps ≡ length open_steps.old.chooser.flags }
    requires place { place < length open_steps.old.chooser.flags }
    requires few { open_steps.old.chooser.entries + 1 < 2 ^ 63 }
    ensures { Follows program.now nodes.now entry.now place open_steps.old open_steps.new }
{
    let next = next_of_actor(nodes, entry);
    let made = EntryMade {
        nodes,
        entry,
        asking: &open_steps.asking,
        next,
    };
    mark(&made, &open_steps.steps, &mut open_steps.chooser);
    open_steps.asking.turn(entry, next);
    open_steps.chooser.taken(place);
    open_steps.is_finished = is_finished(program, nodes);
}
