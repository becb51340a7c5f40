//! A client's lease of a lock, read off a journal (`specs/Leases.antt`).
ghost use Rattle.std.specs.Prelude.{◌≡◌};
ghost use Rattle.dso_base.specs.declared.journal.Node.TheVariants.{Client};
ghost use Rattle.dso_plain.specs.KeyTests.{is_lock};
ghost use Rattle.dso_law.specs.Entries.{newest_first, entries_of, by_taken_down, one_sent_up};
ghost use Rattle.dso_law.specs.Leases.{leased, standing, standing_up, standing_down, standing_after};

use crate::LockStanding;
use crate::entries::Entries;
use crate::readings::is_client;
use dso_base::{Down, Entry, Input, Journal, Level, LockName, Sent, Up};

/// The lease that the client has of the lock after a journal, None exactly where it has none. It takes no memory.
pub fn leased(journal: &Journal, client: u8, lock: LockName) -> Option<Level>
    ensures { result ≡ leased lock (entries_of (Client client) (newest_first journal.now)) }
{
    standing(&Entries::new(journal.entries.as_slice()), client, lock).lease
}

/// How the lock stands with the client after these entries.
fn standing(entries: &Entries<'_>, client: u8, lock: LockName) -> LockStanding
    ensures { result ≡ standing lock (entries_of (Client client) entries.now) }
{
    let mut standing = LockStanding {
        lease: None,
        is_asked: false,
    };
    for entry in entries.oldest_first() {
        if is_client(entry.node, client) {
            standing = standing_after(entry, lock, standing);
        }
    }
    standing
}

/// Whether the two locks are one.
fn is_lock(lock: LockName, other: LockName) -> bool
    ensures { result ≡ is_lock lock other }
{
    match (lock, other) {
        (LockName::Mon(object), LockName::Mon(that)) => that == object,
        (LockName::Name(number), LockName::Name(that)) => that == number,
        _ => false,
    }
}

/// How the lock stands after one more entry of the client.
fn standing_after(entry: &Entry, lock: LockName, before: LockStanding) -> LockStanding
    ensures { result ≡ standing_after lock entry.now before }
{
    let mut standing = standing_by_taken(&entry.input, lock, before);
    for sent in entry.sent.as_slice() {
        standing = standing_by_sent(sent, lock, standing);
    }
    standing
}

/// What the message that an entry takes makes of how the lock stands.
fn standing_by_taken(input: &Input, lock: LockName, before: LockStanding) -> LockStanding
    ensures { result ≡ by_taken_down (standing_down lock) input.now before }
{
    match input {
        Input::TookDown(Down::Grant(name, level)) => if is_lock(lock, *name) {
            LockStanding {
                lease: Some(*level),
                is_asked: false,
            }
        } else {
            before
        },
        _ => before,
    }
}

/// What a message sent makes of how the lock stands.
fn standing_by_sent(sent: &Sent, lock: LockName, before: LockStanding) -> LockStanding
    ensures { result ≡ one_sent_up (standing_up lock) before sent.now }
{
    match sent {
        Sent::ToServer(Up::Request(name, _)) => if is_lock(lock, *name) {
            LockStanding {
                lease: before.lease,
                is_asked: true,
            }
        } else {
            before
        },
        Sent::ToServer(Up::Return(name, _)) => if is_lock(lock, *name) {
            LockStanding {
                lease: None,
                is_asked: before.is_asked,
            }
        } else {
            before
        },
        _ => before,
    }
}
