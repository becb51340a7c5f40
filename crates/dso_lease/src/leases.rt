//! The leases of one client (`specs/Leases.antt`).
ghost use Rattle.std.specs.Prelude.{◌≡◌, None, Some, is_some, true, OnOk, OnErr, IfOk};
ghost use Rattle.std.specs.Bool.{OnTrue, OnFalse};
ghost use Rattle.std.specs.Option.{option_map};
ghost use Rattle.dso_lookup.specs.Maps.{look};
ghost use Rattle.dso_lookup.specs.Orders.{lock_order};
ghost use Rattle.dso_lease.specs.Leases.{standing_in, with_standing, answer, after_want, entered, recalled, granted_at, is_asked, is_leased, is_returned, lease_of};

use crate::standing::{Lease, LeaseStanding, Want};
use dso_base::{Level, LockName, NoMemory};
use std::alloc::Global;
use std::collections::BTreeMap;

/// The locks that a client asked for or has a lease of. Contracts see how each lock stands (`standing_in`): asked for,
/// leased, or neither.
///
/// Each call costs the logarithm of the number of these locks.
#[derive(Drop)]
pub struct Leases {
    locks: BTreeMap<LockName, LeaseStanding>,
}

/// Changes how a lock stands that is not idle. It takes no memory.
fn stand(locks: &mut BTreeMap<LockName, LeaseStanding>, lock: LockName, standing: LeaseStanding)
    requires { is_some (look lock_order locks.old lock) ≡ true }
    ensures { look lock_order locks.new ≡ with_standing lock (Some standing) (look lock_order locks.old) }
{
    if let Some(place) = locks.get_mut(&lock) {
        *place = standing;
    }
}

impl Leases {
    /// No lease, and nothing asked for.
    pub fn new(alloc: Global) -> Leases
        ensures { standing_in result ≡ (λ _. None) }
    {
        Leases {
            locks: BTreeMap::new(alloc),
        }
    }

    /// A thread wants to enter the lock at the level, as an inner entry where it holds the lock already.
    ///
    /// `Held` exactly where a lease of at least the level admits this entry: any inner one, and an outer one where the
    /// lease isn't closing or wasn't entered since its grant. `Ask` exactly where there is no lease and none was asked
    /// for; it is asked for now. `Waiting` exactly where it was asked for before. `Closing` exactly where there is a
    /// lease that admits no such entry; a lease for reading is closing from here on where the level is `Write`.
    ///
    /// It answers `NoMemory` where an allocation was refused, which can be only where there is no lease and none was
    /// asked for; nothing is changed then.
    pub fn want(&mut self, lock: LockName, level: Level, inner: bool) -> Result<Want, NoMemory>
        ensures answer { IfOk result (λ want. want ≡ answer level inner (standing_in self.old lock)) }
        ensures stands { OnOk result (standing_in self.new ≡ with_standing lock (Some (after_want level (standing_in self.old lock))) (standing_in self.old)) }
        ensures refused { OnErr result (standing_in self.old lock ≡ None) }
        ensures err { OnErr result (standing_in self.new ≡ standing_in self.old) }
    {
        match self.standing(lock) {
            None => {
                self.locks.insert(lock, LeaseStanding::Asked)?;
                Ok(Want::Ask(level))
            }
            Some(standing) => {
                stand(&mut self.locks, lock, standing.wanted(level));
                Ok(standing.answer(level, inner))
            }
        }
    }

    /// A thread entered the lock: its lease, where there is one, was entered since its grant. It takes no memory.
    pub fn entered(&mut self, lock: LockName)
        ensures { standing_in self.new ≡ with_standing lock (option_map entered (standing_in self.old lock)) (standing_in self.old) }
    {
        if let Some(standing) = self.standing(lock) {
            stand(&mut self.locks, lock, standing.entered());
        }
    }

    /// The lock was granted: it is leased at the level, not entered and not closing. False, with nothing changed,
    /// exactly where it wasn't asked for. It takes no memory.
    pub fn granted(&mut self, lock: LockName, level: Level) -> bool
        ensures asked { result ≡ is_asked (standing_in self.old lock) }
        ensures leased { OnTrue result (standing_in self.new ≡ with_standing lock (Some (granted_at level)) (standing_in self.old)) }
        ensures unchanged { OnFalse result (standing_in self.new ≡ standing_in self.old) }
    {
        if !self.is_asked(lock) {
            return false;
        }
        let lease = Lease {
            level,
            is_entered: false,
            is_closing: false,
        };
        stand(&mut self.locks, lock, LeaseStanding::Leased(lease));
        true
    }

    /// The lease was recalled: it is closing. False, with nothing changed, exactly where there is no lease. It takes no
    /// memory.
    pub fn recalled(&mut self, lock: LockName) -> bool
        ensures leased { result ≡ is_leased (standing_in self.old lock) }
        ensures closing { OnTrue result (standing_in self.new ≡ with_standing lock (option_map recalled (standing_in self.old lock)) (standing_in self.old)) }
        ensures unchanged { OnFalse result (standing_in self.new ≡ standing_in self.old) }
    {
        match self.standing(lock) {
            Some(standing @ LeaseStanding::Leased(_)) => {
                stand(&mut self.locks, lock, standing.recalled());
                true
            }
            _ => false,
        }
    }

    /// Gives the lease up. True exactly where it is closing and entered and the lock is free, held by no thread of the
    /// client; the lock is idle then. False changes nothing. It takes no memory.
    pub fn try_return(&mut self, lock: LockName, is_free: bool) -> bool
        ensures due { result ≡ is_returned is_free (standing_in self.old lock) }
        ensures gone { OnTrue result (standing_in self.new ≡ with_standing lock None (standing_in self.old)) }
        ensures unchanged { OnFalse result (standing_in self.new ≡ standing_in self.old) }
    {
        match self.standing(lock) {
            Some(standing) if standing.is_due(is_free) => {
                self.locks.remove(&lock);
                true
            }
            _ => false,
        }
    }

    /// How the lock stands, None where it is neither leased nor asked for. It takes no memory.
    pub fn standing(&self, lock: LockName) -> Option<LeaseStanding>
        ensures { result ≡ standing_in self.now lock }
    {
        self.locks.get(&lock).copied()
    }

    /// The lease of the lock, None where there is none. It takes no memory.
    pub fn leased(&self, lock: LockName) -> Option<Lease>
        ensures { result ≡ lease_of (standing_in self.now lock) }
    {
        match self.standing(lock) {
            Some(LeaseStanding::Leased(lease)) => Some(lease),
            _ => None,
        }
    }

    /// Whether the lock was asked for, and not granted since. It takes no memory.
    pub fn is_asked(&self, lock: LockName) -> bool
        ensures { result ≡ is_asked (standing_in self.now lock) }
    {
        match self.standing(lock) {
            Some(LeaseStanding::Asked) => true,
            _ => false,
        }
    }
}
