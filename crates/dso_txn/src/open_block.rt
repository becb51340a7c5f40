//! The open block of a thread (`specs/InHand.antt`).
ghost use Rattle.std.specs.Prelude.{◌≡◌, OnOk, IfOk};
ghost use Rattle.std.specs.Option.{option_copied};
ghost use Rattle.dso_base.specs.Block.{Work, put_shared, publish};
ghost use Rattle.dso_base.specs.Naming.{work_names};
ghost use Rattle.dso_change.specs.Hands.{hand_of, record_from, IsOnce};
ghost use Rattle.dso_txn.specs.InHand.{IsEmpty, hand_in, news_in, sets_in, thread_of, value_in, with_note, with_output};
ghost use Rattle.dso_txn.specs.NamedInHand.{AddsNamed};
ghost use Rattle.dso_txn.specs.declared.privates.Privates as privates;

use crate::named::{add_bodies, add_notes, add_sets, add_values};
use crate::privates::Privates;
use dso_base::{Body, Ending, NoMemory, Note, Set, ThreadId, Txn, Value};
use dso_change::{Draft, put};
use std::alloc::Global;

/// What a thread did since its last ending: the objects that it published, the last value of each field that it put in
/// an object that was shared before, the printed values and the notifications.
///
/// Beside the thread's [`Privates`] it stands for the work that the thread has in hand.
#[derive(Drop)]
pub struct OpenBlock {
    thread: ThreadId,
    draft: Draft,
}

impl OpenBlock {
    /// The empty block of the thread.
    pub fn new(alloc: Global, thread: ThreadId) -> OpenBlock
        ensures thread { thread_of result ≡ thread }
        ensures empty { IsEmpty result }
    {
        OpenBlock {
            thread,
            draft: Draft::new(alloc),
        }
    }

    /// Adds a write to a shared object, and publishes the private objects that the value reaches: whatever work the two
    /// stood for, they stand for that work after the put. It costs the logarithm of what there is for each object that
    /// moves and each reference of it.
    ///
    /// It answers `NoMemory` where an allocation was refused; the block and the private objects are spent then.
    pub fn put(&mut self, alloc: Global, privates: &mut Privates, set: Set) -> Result<(), NoMemory>
        ensures work { OnOk result ((work : Work) → IsOnce work → hand_in privates.old self.old ≡ hand_of work → hand_in privates.new self.new ≡ hand_of (publish set.value (put_shared set.object set.field set.value work))) }
        ensures thread { thread_of self.new ≡ thread_of self.old }
    {
        put(alloc, &mut privates.bodies, &mut self.draft, set)
    }

    /// The block's latest value of the field: that of an object published in the block, or the last one put. None exactly
    /// where it has none. It takes no memory.
    pub fn value(&self, object: u64, field: u32) -> Option<Value>
        ensures { result ≡ value_in (news_in self.now) (sets_in self.now) object field }
    {
        match self.draft.news.get(&object) {
            Some(body) => body.values.get(field as usize).copied(),
            None => self.draft.sets.get(&(object, field)).copied(),
        }
    }

    /// An object published in the block, with its contents now; None exactly where it isn't one. It takes no memory.
    pub fn body(&self, object: u64) -> Option<&Body>
        ensures { option_copied result ≡ news_in self.now object }
    {
        self.draft.news.get(&object)
    }

    /// Adds a printed value. It answers `NoMemory` where an allocation was refused; the block is spent then.
    pub fn print(&mut self, value: Value) -> Result<(), NoMemory>
        ensures ok { OnOk result (self.new ≡ with_output value self.old) }
    {
        self.draft.outs.push(value)?;
        Ok(())
    }

    /// Adds a notification. It answers `NoMemory` where an allocation was refused; the block is spent then.
    pub fn note(&mut self, note: Note) -> Result<(), NoMemory>
        ensures ok { OnOk result (self.new ≡ with_note note self.old) }
    {
        self.draft.notes.push(note)?;
        Ok(())
    }

    /// Adds the objects that the thread's work in hand names to a list, that of the block and that of its private objects
    /// beside it: whatever work the two stand for, an object is listed exactly where it was before or the work names it, as
    /// often as it does. It costs the size of what there is.
    ///
    /// It answers `NoMemory` where an allocation was refused; the list has some of the objects more then.
    pub fn named(&self, privates: &Privates, into: &mut Vec<u64>) -> Result<(), NoMemory>
        ensures { OnOk result ((work : Work) → IsOnce work → hand_in privates.now self.now ≡ hand_of work → AddsNamed (work_names work) into.old.items into.new.items) }
    {
        add_bodies(&privates.bodies, into)?;
        add_bodies(&self.draft.news, into)?;
        add_sets(&self.draft.sets, into)?;
        add_values(self.draft.outs.as_slice(), into)?;
        add_notes(self.draft.notes.as_slice(), into)
    }

    /// The record of the block, with its number and its ending: of whatever work the block stood for, beside whatever
    /// private objects. The block is empty then.
    ///
    /// It answers `NoMemory` where an allocation was refused; the block is spent then.
    pub fn close(&mut self, alloc: Global, seq: u64, ending: Ending) -> Result<Txn, NoMemory>
        ensures record { IfOk result (λ txn. (own : privates.Privates) (work : Work) → IsOnce work → hand_in own self.old ≡ hand_of work → txn ≡ record_from seq (thread_of self.old) work ending) }
        ensures empty { IsEmpty self.new }
        ensures thread { thread_of self.new ≡ thread_of self.old }
    {
        self.draft.close(alloc, seq, self.thread, ending)
    }
}
