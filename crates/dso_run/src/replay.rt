//! One heap, after the history that a journal commits (`dso_legal/specs/Committed.antt`).
ghost use Rattle.std.specs.Prelude.{◌≡◌, IfOk, OnOk};
ghost use Rattle.dso_plain.specs.After.{after};
ghost use Rattle.dso_plain.specs.History.{Runs, end_of, last_state};
ghost use Rattle.dso_plain.specs.Possible.{May};
ghost use Rattle.dso_plain.specs.State.{opening};
ghost use Rattle.dso_plain.specs.HeapTables.{state_of};
ghost use Rattle.dso_legal.specs.Committed.{committed_of};

use dso_base::{Event, Journal, NoMemory, Shape, Shared};
use dso_legal::Committing;
use dso_plain::Plain;
use std::alloc::Global;

/// Plays the history that a journal commits on one heap, which takes each event of it. What an entry commits is played
/// as soon as the entry was taken in, so that no more of the history stands at once than one entry gives.
pub(crate) fn heap_after(alloc: Global, shape: &Shape, journal: &Journal) -> Result<Plain, NoMemory>
    requires { Runs shape.now (committed_of journal.now) (opening shape.now) }
    ensures { IfOk result (λ plain. state_of plain ≡ last_state shape.now (committed_of journal.now)) }
{
    let mut plain = Plain::new(alloc, shape)?;
    let mut pass = Committing::new(alloc);
    let mut given = Vec::new(alloc);
    for entry in journal.entries.as_slice() {
        pass.take(alloc, entry, &mut given)?;
        play_all(alloc, shape, given.as_slice(), &mut plain)?;
        given.clear();
    }
    Ok(plain)
}

/// Plays events that are possible one after the other.
fn play_all(
    alloc: Global,
    shape: &Shape,
    events: &[Shared<Event>],
    plain: &mut Plain,
) -> Result<(), NoMemory>
    requires { Runs shape.now events.now (state_of plain.old) }
    ensures { OnOk result (state_of plain.new ≡ end_of shape.now events.now (state_of plain.old)) }
{
    for event in events {
        play(alloc, shape, event, plain)?;
    }
    Ok(())
}

/// Plays an event that is possible.
fn play(
    alloc: Global,
    shape: &Shape,
    event: &Shared<Event>,
    plain: &mut Plain,
) -> Result<(), NoMemory>
    requires { May shape.now event.now (state_of plain.old) }
    ensures { OnOk result (state_of plain.new ≡ after shape.now event.now (state_of plain.old)) }
{
    plain.apply(alloc, shape, event.get())?;
    Ok(())
}
