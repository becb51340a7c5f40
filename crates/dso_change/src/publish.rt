//! Publishing: the private objects of a thread that are found from a value go to those published
//! (`dso_base/specs/Block.antt`).
ghost use Rattle.std.specs.Prelude.{ℕ, ◌≡◌, ◌↔◌, is_some, [], IsTrue, OnOk, IfOk};
ghost use Rattle.std.specs.Ordering.{nat_cmp};
ghost use Rattle.std.specs.BTreeMap.{keys, is_at};
ghost use Rattle.std.specs.BTreeSet.{contains};
ghost use Rattle.std.specs.Prelude.{None};
ghost use Rattle.dso_base.specs.Block.{Work, body_names, publish};
ghost use Rattle.dso_lookup.proofs.Listed.{key_listed};
ghost use Rattle.dso_lookup.specs.Maps.{look, writes, written};
ghost use Rattle.dso_change.specs.Hands.{hand_in, hand_of, IsOnce, with_references, either, kept, joined};

use crate::draft::Draft;
use dso_base::{Body, NoMemory, Value};
use dso_lookup::{PrivateObjects, put, reached_from, take};
use std::alloc::Global;
use std::collections::{BTreeMap, BTreeSet};

/// The private objects of a thread, as a table has them.
#[derive(Drop)]
struct PrivateBodies<'a> {
    bodies: &'a BTreeMap<u64, Body>,
}

impl PrivateObjects for PrivateBodies<'_> {
    ghost mine = { λ privates object. is_some (look nat_cmp privates.bodies.now object) };

    ghost names = { λ privates object. body_names (look nat_cmp privates.bodies.now object) };

    ghost objects = { λ privates. keys privates.bodies.now };

    fn is_private(&self, object: u64) -> bool {
        self.bodies.contains_key(&object)
    }

    fn named(&self, alloc: Global, object: u64) -> Result<Vec<u64>, NoMemory> {
        match self.bodies.get(&object) {
            Some(body) => {
                let named = references_in(alloc, body.values.as_slice())?;
                Ok(named)
            }
            None => Ok(Vec::new(alloc)),
        }
    }

    ghost listed = { λ privates. key_listed privates.bodies.now };
}

/// The objects that the values name, each as often as it is named.
fn references_in(alloc: Global, values: &[Value]) -> Result<Vec<u64>, NoMemory>
    ensures { IfOk result (λ named. named.items ≡ with_references values.now []) }
{
    let mut named = Vec::new(alloc);
    for value in values {
        if let Value::Ref(object) = value {
            named.push(*object)?;
        }
    }
    Ok(named)
}

/// Moves a private object, if it is one, to those published.
fn move_one(
    object: u64,
    privates: &mut BTreeMap<u64, Body>,
    news: &mut BTreeMap<u64, Body>,
) -> Result<(), NoMemory>
    ensures privates { look nat_cmp privates.new ≡ written (writes (is_at (nat_cmp object)) (λ _. None)) (look nat_cmp privates.old) }
    ensures news { OnOk result (look nat_cmp news.new ≡ written (writes (is_at (nat_cmp object)) (λ _. either (look nat_cmp privates.old object) (look nat_cmp news.old object))) (look nat_cmp news.old)) }
{
    match take(privates, &object) {
        Some(body) => put(news, object, body),
        None => Ok(()),
    }
}

/// Moves the private objects that are in the set to those published.
fn move_all(
    objects: BTreeSet<u64>,
    privates: &mut BTreeMap<u64, Body>,
    news: &mut BTreeMap<u64, Body>,
) -> Result<(), NoMemory>
    ensures privates { OnOk result (look nat_cmp privates.new ≡ kept (contains nat_cmp objects) (look nat_cmp privates.old)) }
    ensures news { OnOk result (look nat_cmp news.new ≡ joined (contains nat_cmp objects) (look nat_cmp privates.old) (look nat_cmp news.old)) }
{
    let mut left = objects;
    while let Some(object) = left.pop_first() {
        move_one(object, privates, news)?;
    }
    Ok(())
}

/// Publishes what is found from the value: whatever work the two stood for, they stand for it after that.
pub(crate) fn publish(
    alloc: Global,
    value: Value,
    privates: &mut BTreeMap<u64, Body>,
    draft: &mut Draft,
) -> Result<(), NoMemory>
    ensures { OnOk result ((work : Work) → IsOnce work → hand_in privates.old draft.old ≡ hand_of work → hand_in privates.new draft.new ≡ hand_of (publish value work)) }
{
    let found = reached_from(alloc, &PrivateBodies { bodies: privates }, value)?;
    move_all(found, privates, &mut draft.news)
}
