//! Leases that are given back (`dso_law/specs/Closing.antt`).
ghost use Rattle.std.specs.Prelude.{ℕ, ◌≡◌, ◌&&◌, [], ◌∷◌, IfOk, None, Some, is_some, true};
ghost use Rattle.std.specs.BTreeMap.{is_at};
ghost use Rattle.dso_lease.specs.Leases.{standing_in, was_entered, with_standing};
ghost use Rattle.dso_lookup.specs.Maps.{look, writes, written};
ghost use Rattle.dso_lookup.specs.Orders.{lock_order};
ghost use Rattle.dso_law.specs.Closing.{is_lease_due};
ghost use Rattle.dso_law.specs.Leases.{leased};
ghost use Rattle.dso_client.specs.ThreadActs.{KeepsCounts};
ghost use Rattle.dso_client.specs.StateStands.{ClientPartsStand};
ghost use Rattle.dso_client.specs.LockStateStands.{list_at};
ghost use Rattle.dso_client.specs.MessageEffects.{heard};
ghost use Rattle.dso_client.specs.RunPoints.{RunPoint};
ghost use Rattle.dso_client.specs.RunFacts.{RunFacts};
ghost use Rattle.dso_client.specs.TakenMessages.{IsQuiet, Settles};
ghost use Rattle.dso_client.specs.TouchedLocks.{touched};
ghost use Rattle.dso_base.specs.declared.message.Down.{Down};
ghost use Rattle.dso_base.specs.declared.message.Up.TheVariants as up;

use crate::client_state::ClientState;
use crate::lock_state::LockState;
use crate::locks::is_lease_due;
use dso_base::{Items, LockName, NoMemory, ThreadId, Up};
use dso_lease::Leases;
use dso_lookup::take;
use dso_wait::WaitList;
use std::alloc::Global;
use std::collections::BTreeMap;

/// Gives up a lease that was entered, of a lock that no thread of the client holds: it is closing from here on, and so
/// the lock is neither leased nor asked for. It takes no memory.
fn give_up(leases: &mut Leases, lock: LockName)
    ensures { was_entered (standing_in leases.old lock) ≡ true → standing_in leases.new ≡ with_standing lock None (standing_in leases.old) }
{
    leases.recalled(lock);
    leases.try_return(lock, true);
}

/// The threads that wait on the lock, which has no list then.
fn move_out(
    alloc: Global,
    lists: &mut BTreeMap<LockName, WaitList>,
    lock: LockName,
) -> Vec<ThreadId>
    ensures all { result.items ≡ list_at lists.old lock }
    ensures none { look lock_order lists.new ≡ written (writes (is_at (lock_order lock)) (λ _. None)) (look lock_order lists.old) }
{
    match take(lists, &lock) {
        Some(list) => {
            let mut waiting = list;
            waiting.move_out()
        }
        None => Vec::new(alloc),
    }
}

/// Gives a lease back that was entered, of a lock that no thread of the client holds: the message that does, with the
/// threads that wait on the lock, which has no list then.
pub(crate) fn give_back(alloc: Global, lock_state: &mut LockState, lock: LockName) -> Up
    ensures message { result ≡ up.Return lock (list_at lock_state.old.lists lock) }
    ensures given_up { was_entered (standing_in lock_state.old.leases lock) ≡ true → standing_in lock_state.new.leases ≡ with_standing lock None (standing_in lock_state.old.leases) }
    ensures unlisted { look lock_order lock_state.new.lists ≡ written (writes (is_at (lock_order lock)) (λ _. None)) (look lock_order lock_state.old.lists) }
    ensures holds { lock_state.new.holds ≡ lock_state.old.holds }
{
    give_up(&mut lock_state.leases, lock);
    Up::Return(
        lock,
        Items::from_vec(move_out(alloc, &mut lock_state.lists, lock)),
    )
}

/// Gives the lease of the lock back, which is to be given back.
fn settle_one(alloc: Global, kept: &mut ClientState, lock: LockName) -> Result<Vec<Up>, NoMemory>
    ensures settles { IfOk result (λ sent. (clock : ℕ) (m : Down) (at : RunPoint) → ClientPartsStand (heard clock m at) kept.old → IsQuiet at → RunFacts at → touched at m ≡ Some lock
        → (is_some (leased lock (heard clock m at).entries) && is_lease_due at.settings at.client at.next lock (heard clock m at).entries) ≡ true → Settles clock m at sent.items kept.new) }
    ensures contexts { kept.new.contexts ≡ kept.old.contexts }
    ensures counts { KeepsCounts kept.old kept.new }
    ensures spent { kept.new.spent ≡ kept.old.spent }
{
    let mut sent = Vec::new(alloc);
    sent.push(give_back(alloc, &mut kept.lock_state, lock))?;
    Ok(sent)
}

/// Gives the lease back that a message made due, if it did: where it is to be given back.
///
/// It answers `NoMemory` where an allocation was refused.
pub(crate) fn settle(
    alloc: Global,
    kept: &mut ClientState,
    lock: Option<LockName>,
) -> Result<Vec<Up>, NoMemory>
    ensures settles { IfOk result (λ sent. (clock : ℕ) (m : Down) (at : RunPoint) → ClientPartsStand (heard clock m at) kept.old → IsQuiet at → RunFacts at → touched at m ≡ lock
        → Settles clock m at sent.items kept.new) }
    ensures contexts { kept.new.contexts ≡ kept.old.contexts }
    ensures counts { KeepsCounts kept.old kept.new }
    ensures spent { kept.new.spent ≡ kept.old.spent }
{
    match lock {
        Some(lock) => {
            if is_lease_due(kept, lock) {
                settle_one(alloc, kept, lock)
            } else {
                Ok(Vec::new(alloc))
            }
        }
        None => Ok(Vec::new(alloc)),
    }
}
