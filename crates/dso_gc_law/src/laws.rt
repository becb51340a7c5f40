//! The laws of collection (`specs/Garbage.antt`) and of a server that drops garbage (`specs/Lacking.antt`). Each is
//! the contract of a function that does nothing.
ghost use Rattle.dso_gc_law.specs.Garbage.{SweptAreUnnamed, GarbageStays};
ghost use Rattle.dso_gc_law.specs.Lacking.{GarbageIsFound, LackedStaysGarbage, NamedAreThere, SweptIsClean};

/// What is garbage at some time of a lawful journal is named by no later event or message of a client that wasn't lost
/// then, nor by a message of the server; that an object was flushed may still be said.
pub fn swept_are_unnamed()
    ensures { SweptAreUnnamed }
{}

/// What is garbage at some time of a lawful journal is garbage ever after.
pub fn garbage_stays()
    ensures { GarbageStays }
{}

/// A server that lacks the bodies of garbage alone goes on so with each entry of a lawful journal, as long as it loses
/// no others.
pub fn lacked_stays_garbage()
    ensures { LackedStaysGarbage }
{}

/// Such a server has the stored body of each object that a message in flight to it names, if its client isn't lost.
pub fn named_are_there()
    ensures { NamedAreThere }
{}

/// Such a server finds the garbage that is left by the bodies that it has, the starts and the edges of the clients'
/// copies: what paths don't reach by these is what is garbage after the entries.
pub fn garbage_is_found()
    ensures { GarbageIsFound }
{}

/// Where it drops what it found, it lacks all garbage and nothing else.
pub fn swept_is_clean()
    ensures { SweptIsClean }
{}
