//! Laws of runs of one client beside those of dso_law (`specs/Runs.antt`). Each is the contract of a function that
//! does nothing.
ghost use Rattle.dso_legal.specs.Runs.{ClientsRun, ChangesStayResident, IdsRiseInRuns, HandsAreOnce};
ghost use Rattle.dso_legal.specs.FlushWords.{InHandIsAbsent, FlushWordsAgree};

/// In a lawful journal the entries of each client are a run of it, of a lost one too.
pub fn clients_run()
    ensures { ClientsRun }
{}

/// What the open block of a thread sets is resident, and so is what a record changes that isn't acknowledged.
pub fn changes()
    ensures { ChangesStayResident }
{}

/// The ids of the objects made rise, and the next one is above them.
pub fn ids()
    ensures { IdsRiseInRuns }
{}

/// What a thread has in hand it has once, the published objects by rising id, and no record that was sent publishes it.
pub fn hands()
    ensures { HandsAreOnce }
{}

/// In a lawful journal an object that a thread has in hand is resident at no client; so what an open block puts to of the
/// resident objects is what it sets, and a client may flush by the one word where it may by the other.
pub fn flushes()
    ensures absent { InHandIsAbsent }
    ensures words { FlushWordsAgree }
{}
