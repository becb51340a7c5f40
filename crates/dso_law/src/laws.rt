//! Laws of the readings of a journal (`specs/Laws.antt`). Each is the contract of a function that does nothing.
ghost use Rattle.dso_law.specs.Laws.{HoldsAfter, WorkGoesOn, ActsAreOpen, Timeouts, SameGraphFits};
ghost use Rattle.dso_law.specs.Prefixes.{Prefixes};

/// Each message that is taken is the first on its way exactly where, at each entry and for each client, the messages
/// taken are a prefix of those sent.
pub fn channels()
    ensures { Prefixes }
{}

/// After a lock is held as said, or no longer, each lock is held so or as before.
pub fn holds()
    ensures { HoldsAfter }
{}

/// An event that is no ending adds to the work in hand as the event says; an ending leaves the private objects alone.
pub fn work()
    ensures { WorkGoesOn }
{}

/// The client rule has an act of a thread exactly where there is an entry that it allows.
pub fn acts()
    ensures { ActsAreOpen }
{}

/// A thread whose timeout is done leaves its client's list, marked where it stood there; behind the record of its timeout
/// it isn't in the server's list either.
pub fn timeouts()
    ensures { Timeouts }
{}

/// A message fits by any graph that has what is stored of each object that the message names, exactly where it fits.
pub fn same_graph_fits()
    ensures { SameGraphFits }
{}
