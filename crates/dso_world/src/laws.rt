//! The laws of the cluster in one program (`specs/Laws.antt`). Each is the contract of a function that does nothing.
ghost use Rattle.dso_world.specs.Breaks.{BrokenIsNeverDue};
ghost use Rattle.dso_world.specs.FinishedRuns.{EndedAsksNothing, FinishedWhereNoneIsBusy};
ghost use Rattle.dso_world.specs.LinkStands.{LinksGoOn};
ghost use Rattle.dso_world.specs.PastOf.{LettersAreLeft};
ghost use Rattle.dso_world.specs.Laws.{PlacesAreChosen, RoundsGoOn};
ghost use Rattle.dso_world.specs.Touched.{OthersStay};

/// Where each flag tells whether its slot is open, and a round begins behind the slot of the last entry, the chosen
/// place is that of the chosen slot, by round robin and by each seed. None is chosen exactly where no slot is open.
pub fn places_are_chosen()
    ensures { PlacesAreChosen }
{}

/// Where each thread stands once among those of the cluster, the place behind a slot is the next one: so a round begins
/// behind the place at which the last step was taken.
pub fn rounds_go_on()
    ensures { RoundsGoOn }
{}

/// In a lawful journal of a program that sets no break twice, a break of a client's connection is never due while that
/// is broken.
pub fn broken_is_never_due()
    ensures { BrokenIsNeverDue }
{}

/// Whatever happens to the connection of a client makes of it one that stands for what has happened: a message is sent
/// by either end; a frame is taken, and gives up the next message of the other end; the connection breaks, and either
/// end takes it up again. A frame is in flight exactly where one can be taken: on a joined connection where a message
/// was sent and not taken, on a broken one to the client, and on one that the client has taken up again to the server.
pub fn links_go_on<M>()
    ensures { LinksGoOn M }
{}

/// Where each entry of a journal follows by the rules, the letters in flight between a client and the server are those
/// posted that were not taken. So where the journal is lawful, and a connection stands for what happened to it by the
/// journal, a frame waits exactly where the journal has a message or a rejoin to take; the server takes it only where
/// no loss and no break is due.
pub fn letters_are_left<M>()
    ensures { LettersAreLeft M }
{}

/// An entry of a client opens and closes no slot but those of that client, and none of a trigger. One of the server
/// opens and closes no act and no flush; only of the client whose message, loss, break or rejoin it is, what the server
/// can do with that client; and what a client can take only if it is that client, or a message is sent to it.
pub fn others_stay()
    ensures { OthersStay }
{}

/// In a lawful journal of sound code a thread has ended exactly where its code asks nothing more.
pub fn ended_asks_nothing()
    ensures { EndedAsksNothing }
{}

/// A journal is finished exactly where none of the clients is busy: of each no trigger is due; and it is lost, or all
/// its threads have ended and no message is in flight between it and the server.
pub fn finished_where_none_is_busy()
    ensures { FinishedWhereNoneIsBusy }
{}
