//! Laws of runs of one client, whose entries each follow those before it by the client rule (`specs/RunLaws.antt`).
//! Each is the contract of a function that does nothing.
ghost use Rattle.dso_law.specs.RunLaws.{OwnRequestsCount, NothingIsDue, WhoAwaitsStays, WhoAwaitsGoesOn, LeasesAreKept};
ghost use Rattle.dso_law.specs.RunLaws.{RecordsAreNumbered, RecordsAreAckedInOrder, AskedIsAbsent, IdsRunOut, IdsAheadGoOn};

/// The client rule looks at the next requests of the client's own threads alone.
pub fn own_requests()
    ensures { OwnRequestsCount }
{}

/// No lease is to be given back between two entries.
pub fn quiet()
    ensures { NothingIsDue }
{}

/// A thread that wants at Write a lease of level Read makes no act entry, and wants it after each other entry.
pub fn awaiting()
    ensures stays { WhoAwaitsStays }
    ensures goes_on { WhoAwaitsGoesOn }
{}

/// The lease of a lock is kept from entry to entry: a grant begins it; an entry of the lock enters it; a recall closes it,
/// and so does a thread that wants it at Write where its level is Read; and it is gone where it is given back.
pub fn leases()
    ensures { LeasesAreKept }
{}

/// The records that aren't acknowledged have consecutive numbers, up to the client's latest one; so they are acknowledged in
/// the order of their numbers.
pub fn numbers()
    ensures numbered { RecordsAreNumbered }
    ensures in_order { RecordsAreAckedInOrder }
{}

/// No object is both asked for and resident.
pub fn apart()
    ensures { AskedIsAbsent }
{}

/// The client made no more objects than it took ids, and while a batch is asked for it made as many: no id is left. So an
/// object made takes the first of the ids ahead, and a batch that comes is all that is ahead.
pub fn ids()
    ensures taken { IdsRunOut }
    ensures ahead { IdsAheadGoOn }
{}
