//! How one lock stands with a client (`specs/Leases.antt`).
ghost use Rattle.std.specs.Prelude.{◌≡◌};
ghost use Rattle.dso_lease.specs.Leases.{suffices, admits, answer_of, wanted, entered, recalled, is_due};

use dso_base::Level;

/// A lease: its level, whether a thread entered the lock since its grant, and whether it is to be given back.
#[derive(Clone, Copy, Debug, PartialEq, Eq)]
pub struct Lease {
    pub level: Level,
    pub is_entered: bool,
    pub is_closing: bool,
}

/// How a lock stands that is not idle: it was asked for, or it is leased.
#[derive(Clone, Copy, Debug, PartialEq, Eq)]
pub enum LeaseStanding {
    Asked,
    Leased(Lease),
}

/// What a thread is told that wants to enter a lock.
#[derive(Clone, Copy, Debug, PartialEq, Eq)]
pub enum Want {
    /// The lease admits the entry.
    Held,
    /// The lock is to be asked for, at this level.
    Ask(Level),
    /// It was asked for before.
    Waiting,
    /// There is a lease that admits no such entry.
    Closing,
}

impl Lease {
    /// Whether its level is at least the one that is wanted. It takes no memory.
    pub fn suffices(self, level: Level) -> bool
        ensures { result ≡ suffices self.level level }
    {
        match (self.level, level) {
            (Level::Read, Level::Write) => false,
            _ => true,
        }
    }

    /// Whether it admits an entry at the level, an inner one by a thread that holds the lock or an outer one.
    pub(crate) fn admits(self, level: Level, inner: bool) -> bool
        ensures { result ≡ admits level inner self }
    {
        self.suffices(level) && (inner || !self.is_closing || !self.is_entered)
    }
}

impl LeaseStanding {
    /// What a thread is told that wants to enter, where the lock stands so.
    pub(crate) fn answer(self, level: Level, inner: bool) -> Want
        ensures { result ≡ answer_of level inner self }
    {
        match self {
            LeaseStanding::Asked => Want::Waiting,
            LeaseStanding::Leased(lease) if lease.admits(level, inner) => Want::Held,
            LeaseStanding::Leased(_) => Want::Closing,
        }
    }

    /// How the lock stands once a thread wants to enter it at the level: a lease of a lower level is closing.
    pub(crate) fn wanted(self, level: Level) -> LeaseStanding
        ensures { result ≡ wanted level self }
    {
        match self {
            LeaseStanding::Asked => self,
            LeaseStanding::Leased(lease) => LeaseStanding::Leased(Lease {
                is_closing: lease.is_closing || !lease.suffices(level),
                ..lease
            }),
        }
    }

    /// How the lock stands once a thread entered it.
    pub(crate) fn entered(self) -> LeaseStanding
        ensures { result ≡ entered self }
    {
        match self {
            LeaseStanding::Asked => self,
            LeaseStanding::Leased(lease) => LeaseStanding::Leased(Lease {
                is_entered: true,
                ..lease
            }),
        }
    }

    /// How the lock stands once its lease was recalled.
    pub(crate) fn recalled(self) -> LeaseStanding
        ensures { result ≡ recalled self }
    {
        match self {
            LeaseStanding::Asked => self,
            LeaseStanding::Leased(lease) => LeaseStanding::Leased(Lease {
                is_closing: true,
                ..lease
            }),
        }
    }

    /// Whether there is a lease that is to be given back now, where the lock is free or not.
    pub(crate) fn is_due(self, is_free: bool) -> bool
        ensures { result ≡ is_due is_free self }
    {
        match self {
            LeaseStanding::Asked => false,
            LeaseStanding::Leased(lease) => lease.is_closing && lease.is_entered && is_free,
        }
    }
}
