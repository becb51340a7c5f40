//! Notes of threads of objects (`specs/States.antt`).
ghost use Rattle.std.specs.Prelude.{◌≡◌, None, Some, IfNone, IfSome, OnOk, OnErr};
ghost use Rattle.dso_table.specs.States.{with_note, without_thread};
ghost use Rattle.dso_table.specs.ObjectTables.{notes_in};
ghost use Rattle.dso_table.specs.Victims.{NoNote, IsFirstNote};

use dso_base::{NoMemory, ThreadId};
use dso_lookup::insert_in;
use std::alloc::Global;
use std::collections::BTreeMap;

/// The objects of which each thread has a note.
pub type Notes = BTreeMap<ThreadId, BTreeMap<u64, ()>>;

/// Adds a note. It answers `NoMemory` where an allocation was refused, and nothing is changed then.
pub(crate) fn add(
    alloc: Global,
    notes: &mut Notes,
    thread: ThreadId,
    object: u64,
) -> Result<(), NoMemory>
    ensures ok { OnOk result (notes_in notes.new ≡ with_note thread object (notes_in notes.old)) }
    ensures err { OnErr result (notes_in notes.new ≡ notes_in notes.old) }
{
    insert_in(alloc, notes, thread, object, ())
}

/// Drops the notes of a thread. It takes no memory.
pub(crate) fn drop_thread(notes: &mut Notes, thread: ThreadId)
    ensures { notes_in notes.new ≡ without_thread thread (notes_in notes.old) }
{
    notes.remove(&thread);
}

/// The first thread that has a note of the object, None exactly where none has. It takes no memory.
pub(crate) fn first_thread(notes: &Notes, object: u64) -> Option<ThreadId>
    ensures none { IfNone result (NoNote object (notes_in notes.now)) }
    ensures first { IfSome result (IsFirstNote object (notes_in notes.now)) }
{
    for (thread, objects) in notes.iter() {
        if objects.contains_key(&object) {
            return Some(*thread);
        }
    }
    None
}
