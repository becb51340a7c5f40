//! The steps of the cluster, and where each of them stands (`specs/StepPlaces.antt`).
ghost use Rattle.std.specs.Prelude.{◌≡◌, ◌<◌, ◌≤◌, ◌-◌, ◌^◌, ℕ, Some, length, position, slice_get};
ghost use Rattle.dso_world.specs.ChosenSlot.{is_slot};
ghost use Rattle.dso_world.specs.StepPlaces.{ArePlaced, AreWithin, IsAt, IsOwnOf, IsPlaced, kept_where};
ghost use Rattle.dso_world.specs.Touched.{client_of};
ghost use Rattle.dso_world.specs.WorldSteps.{slot_of};

use crate::Step;
use crate::node_step::client_of;
use std::marker::Model;

/// Where the own steps of a client stand, from `begin` on and before `end`: its threads' acts, taking a message, and
/// flushing.
#[derive(Clone, Copy)]
pub struct OwnSteps {
    pub(crate) begin: usize,
    pub(crate) end: usize,
}

/// All steps of the cluster in the order of their slots; contracts see the list of them. A step's place is computed from
/// where its client's begin, and no walk over the steps is needed.
#[derive(Drop)]
pub struct StepTable {
    steps: Vec<Step>,
    own: Vec<OwnSteps>,
    behind: usize,
}

impl Model for StepTable {
    ghost use Rattle.std.specs.Prelude.{List};
    ghost use Rattle.dso_world.specs.declared.step.Step.{Step};
    ghost use Rattle.dso_world.specs.StepPlaces.{IsTable};

    ghost Value = { List Step };

    ghost view = { λ table. table.steps.items };

    ghost invariant = { λ table. IsTable table.own.items table.behind table.steps.items };
}

/// Whether the two steps are one.
fn is_step(step: Step, other: Step) -> bool
    ensures { result ≡ is_slot (slot_of step) (slot_of other) }
{
    match (step, other) {
        (Step::Act(thread), Step::Act(that)) => thread.client == that.client
            && thread.index == that.index,
        (Step::TakeDown(client), Step::TakeDown(that)) => client == that,
        (Step::Flush(client), Step::Flush(that)) => client == that,
        (Step::TakeUp(client), Step::TakeUp(that)) => client == that,
        (Step::Lose(client), Step::Lose(that)) => client == that,
        (Step::Break(client), Step::Break(that)) => client == that,
        _ => false,
    }
}

/// Where a step stands that has so many clients before its own: by where that client's own steps stand, and where those
/// of the server begin, behind the own steps of so many clients.
fn place_by(its: OwnSteps, behind: usize, many: usize, before: usize, step: Step) -> usize
    requires begin { its.begin < 2 ^ 32 }
    requires behind { behind < 2 ^ 32 }
    requires many { many < 2 ^ 32 }
    requires before { before ≡ client_of (slot_of step) - 1 }
    ensures { (place : ℕ) → IsAt its behind many place (slot_of step) → result ≡ place }
{
    match step {
        Step::Act(thread) => its.begin + thread.index.saturating_sub(1) as usize,
        Step::TakeDown(_) => its.end.saturating_sub(2),
        Step::Flush(_) => its.end.saturating_sub(1),
        Step::TakeUp(_) => behind + before,
        Step::Lose(_) => behind + many + 2 * before,
        Step::Break(_) => behind + many + 2 * before + 1,
    }
}

/// Where the step stands if it is one of the cluster's, by where the own steps of each client stand.
fn place_named(own: &[OwnSteps], behind: usize, step: Step) -> Option<usize>
    requires { AreWithin own.now behind }
    ensures { (place : ℕ) → IsPlaced own.now behind place (slot_of step) → result ≡ Some place }
{
    let before = client_of(step).saturating_sub(1) as usize;
    let its = own.get(before)?;
    Some(place_by(*its, behind, own.len(), before, step))
}

/// The place, if the step stands there.
fn if_there(steps: &[Step], place: usize, step: Step) -> Option<usize>
    ensures { result ≡ kept_where (slot_of step) place (slice_get steps.now place) }
{
    match steps.get(place) {
        Some(there) => if is_step(step, *there) {
            Some(place)
        } else {
            None
        },
        None => None,
    }
}

impl StepTable {
    /// The table of these steps, of which each stands where it is computed.
    pub(crate) fn new(steps: Vec<Step>, own: Vec<OwnSteps>, behind: usize) -> StepTable
        requires placed { ArePlaced own.items behind steps.items }
        requires within { AreWithin own.items behind }
        ensures { result ≡ steps.items }
    {
        StepTable { steps, own, behind }
    }

    /// How many steps there are.
    pub(crate) fn len(&self) -> usize
        ensures { result ≡ length self.now }
    {
        self.steps.len()
    }

    /// All of them in order.
    pub(crate) fn as_slice(&self) -> &[Step]
        ensures { result.now ≡ self.now }
    {
        self.steps.as_slice()
    }

    /// The step at this place, None where there is no such place.
    pub(crate) fn get(&self, place: usize) -> Option<Step>
        ensures { result ≡ slice_get self.now place }
    {
        self.steps.get(place).copied()
    }

    /// The place of the step, None where it isn't one of these. It costs the same however many steps there are.
    pub(crate) fn place_of(&self, step: Step) -> Option<usize>
        ensures first { result ≡ position (λ other. is_slot (slot_of step) (slot_of other)) self.now }
        ensures only { (place : ℕ) → slice_get self.now place ≡ Some step → result ≡ Some place }
    {
        match place_named(self.own.as_slice(), self.behind, step) {
            Some(place) => if_there(self.steps.as_slice(), place, step),
            None => None,
        }
    }

    /// Where the own steps of the client of this number stand; nowhere where there is no such client.
    pub(crate) fn own(&self, number: u8) -> OwnSteps
        ensures { (place : ℕ) → IsOwnOf number self.now place → (result.begin ≤ place) × (place < result.end) }
    {
        match self.own.get(number.saturating_sub(1) as usize) {
            Some(own) => *own,
            None => OwnSteps { begin: 0, end: 0 },
        }
    }
}
