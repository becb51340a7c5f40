//! The tables that keep one heap with plain monitors (`specs/HeapTables.antt`).
ghost use Rattle.dso_plain.specs.HeapTables.{IsBlank};

use crate::count::Count;
use dso_base::{ClassId, Fault, Items, Level, LockName, ThreadId, Value};
use std::alloc::Global;
use std::collections::BTreeMap;

/// An object: its class, how many fields or elements it has, and the thread it is private to; None is shared.
#[derive(Clone, Copy, Debug, PartialEq, Eq)]
pub struct Object {
    pub class: ClassId,
    pub size: u32,
    pub owner: Option<ThreadId>,
}

/// How a thread holds a lock: at the level of its first entry, and how often it entered.
#[derive(Drop)]
pub struct Hold {
    pub level: Level,
    pub count: Count,
}

/// What is known of one heap, its monitors and its threads. Lists have the newest last.
///
/// Holds and waits stand by lock and then by thread, the waits of those that are marked for themselves, each with the
/// count of the hold that the thread is to have again. `held` and `waiting` tell the locks by thread, so that no
/// question about a thread looks through the locks, nor one about a lock through the threads; `threads` tells, by client,
/// the threads that have entered a lock.
#[derive(Drop)]
pub struct HeapTables {
    pub objects: BTreeMap<u64, Object>,
    pub made: BTreeMap<ThreadId, Items<u64>>,
    pub heap: BTreeMap<(u64, u32), Value>,
    pub past: BTreeMap<(u64, u32), Items<Value>>,
    pub seen: BTreeMap<(ThreadId, u64, u32), usize>,
    pub holds: BTreeMap<LockName, BTreeMap<ThreadId, Hold>>,
    pub held: BTreeMap<ThreadId, BTreeMap<LockName, ()>>,
    pub waits: BTreeMap<LockName, BTreeMap<ThreadId, Count>>,
    pub marked: BTreeMap<LockName, BTreeMap<ThreadId, Count>>,
    pub waiting: BTreeMap<ThreadId, BTreeMap<LockName, ()>>,
    pub threads: BTreeMap<u8, BTreeMap<ThreadId, ()>>,
    pub output: BTreeMap<ThreadId, Items<Value>>,
    pub ended: BTreeMap<ThreadId, Option<Fault>>,
    pub lost: BTreeMap<u8, bool>,
    pub unguarded: Count,
}

impl HeapTables {
    /// HeapTables in which nothing stands. It takes no memory.
    pub(crate) fn blank(alloc: Global) -> HeapTables
        ensures { IsBlank result }
    {
        HeapTables {
            objects: BTreeMap::new(alloc),
            made: BTreeMap::new(alloc),
            heap: BTreeMap::new(alloc),
            past: BTreeMap::new(alloc),
            seen: BTreeMap::new(alloc),
            holds: BTreeMap::new(alloc),
            held: BTreeMap::new(alloc),
            waits: BTreeMap::new(alloc),
            marked: BTreeMap::new(alloc),
            waiting: BTreeMap::new(alloc),
            threads: BTreeMap::new(alloc),
            output: BTreeMap::new(alloc),
            ended: BTreeMap::new(alloc),
            lost: BTreeMap::new(alloc),
            unguarded: Count::zero(alloc),
        }
    }
}
