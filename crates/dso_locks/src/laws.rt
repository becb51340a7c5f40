//! That the table's states are those of the server rule (`specs/Laws.antt`). It is the contract of a function that
//! does nothing.
ghost use Rattle.dso_locks.specs.Laws.{BeginsUnused, FollowsEntries};

/// The readings of the server rule begin as a new table does; and with one more entry, they change as a lock of the table
/// does that hears what the entry takes in, and of which is told what the entry sends.
pub fn locks_follow_entries()
    ensures begins { BeginsUnused }
    ensures follows { FollowsEntries }
{}
