//! What a client keeps of its locks: holds, leases and waiters.
use dso_base::LockName;
use dso_hold::Hold;
use dso_lease::Leases;
use dso_wait::WaitList;
use std::collections::BTreeMap;

/// Who holds which lock; the leases; and for each lock the list of threads that wait on it.
#[derive(Drop)]
pub struct LockState {
    pub holds: Hold,
    pub leases: Leases,
    pub lists: BTreeMap<LockName, WaitList>,
}
