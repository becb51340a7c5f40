//! The laws of one heap with plain monitors (`specs/Laws.antt`). Each is the contract of a function that does nothing.
ghost use Rattle.dso_plain.specs.Loss.{Loss, MarksAfterLoss, WaitersLeft, ChoiceAfterLoss};
ghost use Rattle.dso_lookup.specs.Reaching.{ReachTells};
ghost use Rattle.dso_plain.specs.Publishing.{PublishedIsReached};
ghost use Rattle.dso_plain.specs.Own.{Own, Guarded};
ghost use Rattle.dso_plain.specs.Reads.{CountNeverFalls, HeapReads};
ghost use Rattle.dso_plain.specs.Laws.{RunsAreChoices, Diamond, ChoicesSwap, RunsInParts, RunsButMarksInParts, EndsInParts, Past, Growth, LegalGoesOn, Monitors};

/// A run is a run whatever is marked, in which each event finds the marks that it asks for.
pub fn kinds()
    ensures { RunsAreChoices }
{}

/// Two runs from one state, one of a thread and one of other threads, can swap where their locks do not clash and
/// they make no common id: each can follow the other whatever is marked, both orders end in the same state, and
/// neither touches a lock at a level at which it did not before. Where nobody times out in them, each finds behind
/// the other the marks that it asks for, too.
pub fn diamond()
    ensures swaps { Diamond }
    ensures choices { ChoicesSwap }
{}

/// A run of two lists of events in order is a run of the first and, from where that ends, of the second; so it is of
/// a run whatever is marked.
pub fn parts()
    ensures runs { RunsInParts }
    ensures runs_but_marks { RunsButMarksInParts }
    ensures ends { EndsInParts }
{}

/// The newest of a shared field's past is the heap's value, and what a thread has seen is a place in the past, never
/// beyond the newest; pasts only grow. All this whatever is marked.
pub fn past()
    ensures reached { Past }
    ensures grows { Growth }
{}

/// A run of other clients' threads that notifies no thread of a client survives that client's loss, whatever is marked, and it does
/// not matter whether the loss comes before or after it; where it found the marks that it asks for, it still does. A notification
/// can choose, after the loss, among the waiters left: those of other clients; and nobody exactly where none is left.
pub fn loss()
    ensures runs { Loss }
    ensures marks { MarksAfterLoss }
    ensures waiters { WaitersLeft }
    ensures choice { ChoiceAfterLoss }
{}

/// What a put into a shared object publishes is exactly what is found from the value through private objects.
pub fn publishing()
    ensures reach { ReachTells }
    ensures published { PublishedIsReached }
{}

/// A legal history with more events behind it is legal where these run from its last state and follow the program.
pub fn legal_goes_on()
    ensures { LegalGoesOn }
{}

/// The count of unguarded reads never falls; where it is 0 after a legal history, each read in the history gave the value that
/// the heap had at its place, of a shared object as of a private one.
pub fn heap_reads()
    ensures never_falls { CountNeverFalls }
    ensures none { HeapReads }
{}

/// Who holds a lock at Write holds it alone; only waiters are marked; threads that have ended or whose client is lost
/// have no part in any lock.
pub fn monitors()
    ensures { Monitors }
{}

/// Acts of other threads leave a thread's own parts as they were, and a run that does not touch a guard at Write leaves
/// what it guards as it was. Both whatever is marked.
pub fn untouched()
    ensures own { Own }
    ensures guarded { Guarded }
{}
