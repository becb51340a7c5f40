//! The record of a block, folded from its events (`dso_base/specs/Block.antt`).
ghost use Rattle.std.specs.Prelude.{◌≡◌, IfOk};
ghost use Rattle.std.specs.Ordering.{nat_cmp};
ghost use Rattle.dso_base.specs.Block.{body_in, start, txn_of};
ghost use Rattle.dso_lookup.specs.Maps.{look};
ghost use Rattle.dso_change.specs.Hands.{IsOnce};
ghost use Rattle.dso_change.specs.Events.{MakesNew};

use crate::apply::apply;
use crate::bodies::copy;
use crate::draft::Draft;
use dso_base::{Body, Ending, Event, NoMemory, Shape, ThreadId, Txn};
use dso_lookup::put;
use std::alloc::Global;
use std::collections::BTreeMap;

/// The bodies in a table by object, of each object the first one.
fn table_of(alloc: Global, bodies: &[Body]) -> Result<BTreeMap<u64, Body>, NoMemory>
    ensures { IfOk result (λ table. look nat_cmp table ≡ (λ o. body_in o bodies.now)) }
{
    let mut table = BTreeMap::new(alloc);
    let mut at = bodies.len();
    while at > 0 {
        at -= 1;
        let body = copy(&bodies[at])?;
        put(&mut table, body.object, body)?;
    }
    Ok(table)
}

/// The record of a block: its number and thread; the objects that it published, by rising id; the last value of each
/// field that it put in an object that was shared before, by rising object and field; the printed values and the
/// notifications in order; its ending.
///
/// It takes the private objects as they stood before the block (`classes`) and the block's events; the shape gives the
/// opening values of the objects that these make. Each object is to be made once: each of the private ones stands once, and
/// a New makes an object that the thread has not in hand.
///
/// It answers `NoMemory` where an allocation was refused.
pub fn fold(
    alloc: Global,
    shape: &Shape,
    seq: u64,
    thread: ThreadId,
    events: &[Event],
    classes: &[Body],
    ending: Ending,
) -> Result<Txn, NoMemory>
    ensures { IfOk result (λ txn. IsOnce (start classes.now) → MakesNew shape.now events.now (start classes.now) → txn ≡ txn_of shape.now seq thread classes.now events.now ending) }
{
    let mut privates = table_of(alloc, classes)?;
    let mut draft = Draft::new(alloc);
    for event in events {
        apply(alloc, shape, event, &mut privates, &mut draft)?;
    }
    draft.close(alloc, seq, thread, ending)
}
