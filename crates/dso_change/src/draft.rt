//! The open block of a thread, as it is gathered (`specs/Hands.antt`).
ghost use Rattle.std.specs.Prelude.{◌≡◌, [], OnOk, IfOk};
ghost use Rattle.std.specs.BTreeMap.{IsOrdered};
ghost use Rattle.std.specs.Ordering.{nat_cmp};
ghost use Rattle.dso_base.specs.Block.{Work, put_shared, publish};
ghost use Rattle.dso_change.specs.Hands.{Bodies, hand_in, hand_of, record_from, sets_of, values_of, IsOnce, IsBlank};

use crate::bodies::set_in;
use crate::publish::publish;
use crate::sets::insert_set;
use dso_base::{Body, Ending, Items, NoMemory, Note, Set, ThreadId, Txn, Value};
use std::alloc::Global;
use std::collections::BTreeMap;

/// What an open block did: the objects that it published, by id; the last value of each field that it put in an object
/// that was shared before; the printed values and the notifications, in order.
#[derive(Drop)]
pub struct Draft {
    pub news: BTreeMap<u64, Body>,
    pub sets: BTreeMap<(u64, u32), Value>,
    pub outs: Items<Value>,
    pub notes: Items<Note>,
}

impl Draft {
    /// The empty block.
    pub fn new(alloc: Global) -> Draft
        ensures { IsBlank result }
    {
        Draft {
            news: BTreeMap::new(alloc),
            sets: BTreeMap::new(alloc),
            outs: Items::new(alloc),
            notes: Items::new(alloc),
        }
    }

    /// The record of the block, with its number, its thread and its ending; an empty block is left. It answers `NoMemory`
    /// where an allocation was refused; an empty block is left then, too.
    pub fn close(
        &mut self,
        alloc: Global,
        seq: u64,
        thread: ThreadId,
        ending: Ending,
    ) -> Result<Txn, NoMemory>
        ensures record { IfOk result (λ txn. (privates : Bodies) (work : Work) → IsOnce work → hand_in privates self.old ≡ hand_of work → txn ≡ record_from seq thread work ending) }
        ensures empty { IsBlank self.new }
    {
        let Draft {
            news,
            sets,
            outs,
            notes,
        } = std::mem::replace(self, Draft::new(alloc));
        Ok(Txn {
            seq,
            thread,
            news: bodies_of(alloc, news)?,
            sets: list_of(alloc, sets)?,
            outs,
            notes,
            ending,
        })
    }
}

/// The bodies of a table, by rising id.
fn bodies_of(alloc: Global, bodies: BTreeMap<u64, Body>) -> Result<Items<Body>, NoMemory>
    ensures bodies { IfOk result (λ list. list ≡ values_of bodies) }
    ensures ordered { IsOrdered nat_cmp bodies }
{
    let mut left = bodies;
    let mut list = Items::from_vec(Vec::with_capacity(alloc, left.len())?);
    while let Some((_, body)) = left.pop_first() {
        list.push(body)?;
    }
    Ok(list)
}

/// The sets of a table, by rising object and field.
fn list_of(alloc: Global, sets: BTreeMap<(u64, u32), Value>) -> Result<Items<Set>, NoMemory>
    ensures { IfOk result (λ list. list ≡ sets_of sets) }
{
    let mut left = sets;
    let mut list = Items::new(alloc);
    while let Some(((object, field), value)) = left.pop_first() {
        list.push(Set {
            object,
            field,
            value,
        })?;
    }
    Ok(list)
}

/// Gathers a put into a shared object, without what the value publishes: into its new contents where it was published in
/// the block, else a set.
fn put_shared(alloc: Global, draft: &mut Draft, set: Set) -> Result<(), NoMemory>
    ensures { OnOk result ((privates : Bodies) (work : Work) → hand_in privates draft.old ≡ hand_of work → hand_in privates draft.new ≡ hand_of (put_shared set.object set.field set.value work)) }
{
    if draft.news.contains_key(&set.object) {
        set_in(alloc, &mut draft.news, set);
        Ok(())
    } else {
        insert_set(&mut draft.sets, set)
    }
}

/// Gathers a put into a shared object, and publishes what the value reaches through the private objects: it costs the
/// logarithm of what there is for each object that moves and each reference of it.
///
/// Whatever work the two stood for, they stand for that work after the put. It answers `NoMemory` where an allocation was
/// refused, and both are spent then.
pub fn put(
    alloc: Global,
    privates: &mut BTreeMap<u64, Body>,
    draft: &mut Draft,
    set: Set,
) -> Result<(), NoMemory>
    ensures { OnOk result ((work : Work) → IsOnce work → hand_in privates.old draft.old ≡ hand_of work → hand_in privates.new draft.new ≡ hand_of (publish set.value (put_shared set.object set.field set.value work))) }
{
    put_shared(alloc, draft, set)?;
    publish(alloc, set.value, privates, draft)
}
