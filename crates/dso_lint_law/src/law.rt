//! The law of the lock checker's rules. It is the contract of a function that does nothing.
ghost use Rattle.dso_lint_law.specs.GuardedHistories.{YesIsGuarded};

/// Where both rules hold everywhere in sound code, no legal history of it, whatever its schedule and its losses, has a
/// reply UnlockedSharedObject, WrongLock, ReadOnly or LockUpgrade, and no read in it is unguarded.
pub fn yes_is_guarded()
    ensures { YesIsGuarded }
{}
