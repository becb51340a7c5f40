//! The triggers of a client: when it is lost, and when its connection breaks (`specs/Triggers.antt`).
ghost use Rattle.std.specs.List.{list_any};
ghost use Rattle.std.specs.Prelude.{ℕ, ◌≡◌, ◌<◌, List, IfOk, filter, length, ltb};
ghost use Rattle.dso_base.specs.declared.journal.Trigger.{Trigger};
ghost use Rattle.dso_law.specs.ServerReadings.{is_reached};
ghost use Rattle.dso_server.specs.Triggers.{AreInOrder, AreTriggersOf, break_due_by, loss_due_by, numbers_of};

use dso_base::{NoMemory, Trigger};
use std::alloc::Global;

/// The triggers of one client, by the number of its messages taken at which each is reached, the least first. So which
/// are due is told by one look at the first that was not made yet.
#[derive(Drop)]
pub struct Triggers {
    losses: Vec<u64>,
    breaks: Vec<u64>,
}

/// At which numbers the triggers of the client of this number are reached.
fn numbers(alloc: Global, client: u8, triggers: &[Trigger]) -> Result<Vec<u64>, NoMemory>
    ensures { IfOk result (λ numbers. numbers.items ≡ numbers_of client triggers.now) }
{
    let mut numbers = Vec::new(alloc);
    for trigger in triggers {
        if trigger.client == client {
            numbers.push(trigger.after)?;
        }
    }
    Ok(numbers)
}

/// The same, the least first.
fn in_order(alloc: Global, client: u8, triggers: &[Trigger]) -> Result<Vec<u64>, NoMemory>
    ensures { IfOk result (λ numbers. AreInOrder client triggers.now numbers.items) }
{
    let mut numbers = numbers(alloc, client, triggers)?;
    numbers.sort_unstable();
    Ok(numbers)
}

/// Whether more than so many triggers are reached, of those that are reached at these numbers.
fn is_passed(numbers: &[u64], made: usize, taken: u64) -> bool
    ensures { (c : ℕ) (triggers : List Trigger) → AreInOrder c triggers numbers.now → result ≡ ltb made (length (filter (is_reached c taken) triggers)) }
{
    match numbers.get(made) {
        Some(number) => *number <= taken,
        None => false,
    }
}

/// Whether one trigger is reached, of those that are reached at these numbers.
fn is_any_passed(numbers: &[u64], taken: u64) -> bool
    ensures { (c : ℕ) (triggers : List Trigger) → AreInOrder c triggers numbers.now → result ≡ list_any (is_reached c taken) triggers }
{
    is_passed(numbers, 0, taken)
}

impl Triggers {
    /// The triggers of the client of this number among these losses and breaks. It takes memory for each of its
    /// triggers.
    pub fn new(
        alloc: Global,
        client: u8,
        losses: &[Trigger],
        breaks: &[Trigger],
    ) -> Result<Triggers, NoMemory>
        ensures { IfOk result (AreTriggersOf client losses.now breaks.now) }
    {
        let losses = in_order(alloc, client, losses)?;
        let breaks = in_order(alloc, client, breaks)?;
        Ok(Triggers { losses, breaks })
    }

    /// Whether a loss of the client is due, of which so many messages were taken. It takes one look, and no memory.
    pub fn is_loss_due(&self, taken: u64, is_lost: bool) -> bool
        ensures { (c : ℕ) (losses breaks : List Trigger) → AreTriggersOf c losses breaks self.now → result ≡ loss_due_by c taken is_lost losses }
    {
        !is_lost && is_any_passed(&self.losses, taken)
    }

    /// Whether a break of its connection is due, which was broken so often, by whether a loss is. It takes one look, and
    /// no memory.
    pub fn is_break_due(&self, taken: u64, is_lost: bool, is_loss_due: bool, broke: u32) -> bool
        ensures { (c : ℕ) (losses breaks : List Trigger) → AreTriggersOf c losses breaks self.now → result ≡ break_due_by c taken is_lost is_loss_due broke breaks }
    {
        !is_lost && !is_loss_due && is_passed(&self.breaks, broke as usize, taken)
    }
}
