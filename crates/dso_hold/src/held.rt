//! How a thread holds a lock, and what it is answered that enters one (`specs/Holds.antt`).
ghost use Rattle.std.specs.Prelude.{◌≡◌, ◌+◌, ◌^◌, ◌<◌, ◌≤◌, true};
ghost use Rattle.dso_hold.specs.Holds.{is_lower, excludes, entered_again};

use dso_base::{Level, ThreadId};

/// How a thread holds a lock: at the level of its first entry, and how often it entered.
#[derive(Clone, Copy, Debug, PartialEq, Eq)]
pub struct Held {
    pub level: Level,
    pub count: u32,
}

/// The answer to a thread that enters a lock.
#[derive(Clone, Copy, Debug, PartialEq, Eq)]
pub enum Enter {
    Entered,
    /// It holds the lock at `Read` and asks for `Write`.
    LockUpgrade,
    /// This other thread holds the lock in conflict.
    Blocked(ThreadId),
}

impl Held {
    /// Whether its level is lower than the one that is wanted.
    pub(crate) fn is_lower(self, level: Level) -> bool
        ensures { result ≡ is_lower level self }
    {
        match (self.level, level) {
            (Level::Read, Level::Write) => true,
            _ => false,
        }
    }

    /// Whether it excludes an entry of another thread at the level: one of the two is at `Write`.
    pub(crate) fn excludes(self, level: Level) -> bool
        ensures { result ≡ excludes level self }
    {
        match (self.level, level) {
            (Level::Read, Level::Read) => false,
            _ => true,
        }
    }

    /// The hold after so many more entries.
    pub(crate) fn entered_again(self, count: u32) -> Held
        requires { self.count + count < 2 ^ 32 }
        ensures { result ≡ entered_again count self }
    {
        Held {
            count: self.count + count,
            ..self
        }
    }
}
