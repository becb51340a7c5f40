//! Laws of what a client's core keeps of its entries (`specs/CoreLaws.antt`). Each is the contract of a function that
//! does nothing.
ghost use Rattle.dso_law.specs.CoreLaws.{BodiesAreHeld, MarksTell, LeasesTell, ClosingIsKept, IdsAreAhead, ResidentsAreCounted};

/// Whatever the entries are: the body held of an object is there exactly while the object is resident, and tells its class
/// and size, and the copy of each field below that size.
pub fn bodies()
    ensures { BodiesAreHeld }
{}

/// Where records are acknowledged in the order of their numbers, an object has a mark exactly where a record that isn't
/// acknowledged changes it, and the mark is the number of the last of these.
pub fn marks()
    ensures { MarksTell }
{}

/// Whatever the entries are, the lease of a lock tells its level, whether it admits an outer entry, and whether it is to be
/// given back; and it is closing where it stays so, or where a thread awaits the lock at Write that needs no lease.
pub fn leases()
    ensures tells { LeasesTell }
    ensures closing { ClosingIsKept }
{}

/// The next object gets the first of the ids ahead; a batch that comes leaves those that there are, and stands behind them.
pub fn ids()
    ensures { IdsAreAhead }
{}

/// Whatever the entries are, the objects counted are those resident, each once.
pub fn residents()
    ensures { ResidentsAreCounted }
{}
