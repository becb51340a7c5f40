//! Laws of lawful journals, of any number of clients and threads and for every program. Each is the contract of a
//! function that does nothing.
ghost use Rattle.dso_legal.specs.Tokens.{LeasesAreTokens, LeasesFit, LeasesAreCompatible};
ghost use Rattle.dso_legal.specs.Numbered.{RecordsStayInOrder, RecordsFit};
ghost use Rattle.dso_legal.specs.GivenOnce.{IdsAreGivenOnce, IdsAreOfBatches};
ghost use Rattle.dso_legal.specs.Batches.{BatchesStayInOrder, BatchesFit};
ghost use Rattle.dso_legal.specs.Holds.{HoldsAreWithinLeases, LeasesAreKnown, HoldsAreCompatible};
ghost use Rattle.dso_legal.specs.Residency.{ResidencyAgrees, ObjectsFit, SetsAreResident};
ghost use Rattle.dso_legal.specs.MadeOnce.{ObjectsAreMadeOnce};
ghost use Rattle.dso_legal.specs.ClassesKept.{ClassesAreKept};
ghost use Rattle.dso_legal.specs.ValuesFine.{ValuesAreFine};
ghost use Rattle.dso_legal.specs.RepliesThere.{RepliesAreThere};
ghost use Rattle.dso_legal.specs.ValuesFit.{ValuesFit};
ghost use Rattle.dso_legal.specs.LocksThere.{LocksAreThere};
ghost use Rattle.dso_legal.specs.OwnObjects.{ObjectsInHandAreOwn};
ghost use Rattle.dso_legal.specs.NewsAreNew.{NewsAreNew};
ghost use Rattle.dso_legal.specs.Sorted.{RecordsAreSorted};
ghost use Rattle.dso_legal.specs.RecordsLight.{RecordsAreLight};
ghost use Rattle.dso_legal.specs.Blocks.{BlocksAreKept, BlocksAreHandedIn, HistoriesHoldBlocks, HistoriesHoldEvents, HistoriesHoldBlocksAsMade};
ghost use Rattle.dso_legal.specs.Works.{WorksTell};
ghost use Rattle.dso_legal.specs.Names.{NamesStayKnown, ObjectsAreMade};
ghost use Rattle.dso_legal.specs.Views.{ActsArePossible};
ghost use Rattle.dso_legal.specs.Central.{ClientsStand, CentralLaw, CommitsWhatWasMade};
ghost use Rattle.dso_legal.specs.Places.{WaitersAreTokens};
ghost use Rattle.dso_legal.specs.Marks.{WaitersAreKnown};
ghost use Rattle.dso_legal.specs.Store.{StoreIsHeap};
ghost use Rattle.dso_legal.specs.SoundCode.{SoundCodeIsSoundProgram, SoundCodeGivesKnownTexts, SoundCodeStaysWithinShape};
ghost use Rattle.dso_legal.specs.RecordsLeased.{RecordsAreLeased};
ghost use Rattle.dso_legal.specs.NamesOut.{NamesAreOut};
ghost use Rattle.dso_legal.specs.LostClients.{LostAreToldNothing, LostAreUnheard};
ghost use Rattle.dso_legal.specs.Settled.{SettledAreCommitted};
ghost use Rattle.dso_legal.specs.WaysDown.{WaysDownFit};
ghost use Rattle.dso_legal.specs.RecordsOwn.{RecordsAreOwn, HeldAreStored};
ghost use Rattle.dso_legal.specs.Room.{BatchesHaveRoom};
ghost use Rattle.dso_legal.specs.MessagesFit.{MessagesFit};
ghost use Rattle.dso_legal.specs.MapHistory.{MapsAreOneMap};

/// For each client that isn't lost and each lock: each message in flight may come where it stands, and once all are taken the
/// client and the server say the same of the lock's lease.
pub fn leases_are_tokens()
    ensures { LeasesAreTokens }
{}

/// For each client that isn't lost the first message in flight in each direction fits the leases of the end that takes it: a
/// grant was asked for, a request finds neither a lease nor a request of the client, a return finds the lease.
pub fn leases_fit()
    ensures { LeasesFit }
{}

/// Of each lock the leases of two clients at the server don't conflict.
pub fn leases_are_compatible()
    ensures { LeasesAreCompatible }
{}

/// For each client that isn't lost: the records in flight to the server have the numbers after the server's last one, up to the
/// client's; and those unacknowledged are those in flight to the server behind those whose acknowledgements are in flight to
/// the client.
pub fn records_stay_in_order()
    ensures { RecordsStayInOrder }
{}

/// For each client that isn't lost: a record that comes has the server's next number, and an acknowledgement that comes
/// is of the first record that isn't acknowledged.
pub fn records_fit()
    ensures { RecordsFit }
{}

/// For each client that isn't lost: each batch of ids in flight was asked for; and the batches that the server gave are those
/// that the client has and behind them those in flight, each above those before it.
pub fn batches_stay_in_order()
    ensures { BatchesStayInOrder }
{}

/// For each client that isn't lost: a batch that comes was asked for, and is above those that the client has.
pub fn batches_fit()
    ensures { BatchesFit }
{}

/// A batch of ids that comes to a client, to a lost one too, ends within 64 bits where the journal has fewer than 2^54 entries:
/// no more batches are given than it has entries.
pub fn batches_have_room()
    ensures { BatchesHaveRoom }
{}

/// The server gives no id to two clients.
pub fn ids_are_given_once()
    ensures { IdsAreGivenOnce }
{}

/// For each client that isn't lost: the id that its next new object gets was given to it.
pub fn ids_are_of_batches()
    ensures { IdsAreOfBatches }
{}

/// Where a thread holds a lock, its client has a lease of the lock of at least the hold's level, and the lease is entered.
pub fn holds_are_within_leases()
    ensures { HoldsAreWithinLeases }
{}

/// For each client that isn't lost: the leases that it has are those that the server gave it.
pub fn leases_are_known()
    ensures { LeasesAreKnown }
{}

/// No two threads of clients that aren't lost hold a lock in conflict.
pub fn holds_are_compatible()
    ensures { HoldsAreCompatible }
{}

/// For each client that isn't lost and each object: each message in flight may come where it stands, and once all are taken the
/// client and the server say the same of whether the client has the object. An object of an id of the client's own counts from
/// the first record on that publishes it.
pub fn residency_agrees()
    ensures { ResidencyAgrees }
{}

/// For each client that isn't lost: a fault that comes is of an object that the client doesn't hold, a flush that comes is of
/// one that it holds, a record that comes sets objects that it holds, and an object that comes was asked for.
pub fn objects_fit()
    ensures { ObjectsFit }
{}

/// What the open block of a thread sets is resident at its client, at a lost one too.
pub fn sets_are_resident()
    ensures { SetsAreResident }
{}

/// The ids of the objects that a client makes rise, and were given to it, as was its next one; no object is made by two
/// clients, nor by two threads; and the next id of no client is that of an object made. All this holds of lost clients too.
pub fn objects_are_made_once()
    ensures { ObjectsAreMadeOnce }
{}

/// The class and the size of an object never change: what threads have in hand and saw, copies, messages in flight and the
/// server's graph tell those with which it was made. All this holds of lost clients too.
pub fn classes_are_kept()
    ensures { ClassesAreKept }
{}

/// In a journal of a sound program that stays within its shape, every value fits the field that it stands in: in what threads
/// have in hand, in copies, in flight and in the server's graph. An object that a value names, or that a thread was told of, was
/// made; a text is one of the program's; and each object was made as its class allows. All this holds of lost clients too.
pub fn values_are_fine()
    ensures { ValuesAreFine }
{}

/// In a journal of a sound program that stays within its shape, the first message in flight in each direction fits the shape, of a
/// lost client too: what a record publishes and sets fits the classes, what it prints was given out, its texts are literals; an
/// object is of the roots exactly where it is object 0; each change of a resident object fits its field.
pub fn values_fit()
    ensures { ValuesFit }
{}

/// In a journal of a sound program that stays within its shape, a request of a lease that comes is of a name that the shape has, or
/// of the monitor of an id that was given out, from a lost client too.
pub fn locks_are_there()
    ensures { LocksAreThere }
{}

/// In a journal of a sound program that stays within its shape, a record that comes of a client that isn't lost is of locks
/// that are leased to the client: the guard of each field that it sets and the lock of each notification at Write, the lock of
/// an exit, that of a wait at Write.
pub fn records_are_leased()
    ensures { RecordsAreLeased }
{}

/// In a journal of a sound program, a record that comes of a client that isn't lost is of one of the client's threads, which no
/// record taken before ended, and whom its notifications woke there are threads of the client.
pub fn records_are_own()
    ensures { RecordsAreOwn }
{}

/// In a journal of a sound program that stays within its shape, of fewer than 2^54 entries: the first message in flight from
/// each client that isn't lost fits at the server, and the first to each client, a lost one too, fits there.
pub fn messages_fit()
    ensures { MessagesFit }
{}

/// Each object that a client holds, as the server sees it, is in the server's graph.
pub fn held_are_stored()
    ensures { HeldAreStored }
{}

/// In a journal of a sound program that stays within its shape, what a message of a client that isn't lost names is in the
/// server's graph as it comes: the object that a fault asks for; and each object that a record names in what it publishes and
/// sets, or it is among those that the record publishes. Each object that the graph names is in it.
pub fn names_are_out()
    ensures { NamesAreOut }
{}

/// As the server loses a client, and ever after, none of its messages goes to that client: the client has no lease and no
/// request there, holds no object, and none of its threads waits there.
pub fn lost_are_told_nothing()
    ensures { LostAreToldNothing }
{}

/// A message that the server takes of a client that it lost before is answered by nothing, and changes nothing that the server's
/// readings or the history tell.
pub fn lost_are_unheard()
    ensures { LostAreUnheard }
{}

/// Releases are synchronous: where a thread has settled, the history has each block that it ended before, of a lost client too,
/// whatever client is lost later. So it is of every program.
pub fn settled_are_committed()
    ensures { SettledAreCommitted }
{}

/// What comes to a client, to a lost one too, finds it as it must: a grant was asked for; a batch of ids was asked for, and is
/// above those that the client has; an acknowledgement is of the first record that isn't acknowledged; an object was asked for.
pub fn ways_down_fit()
    ensures { WaysDownFit }
{}

/// In a journal of a sound program that stays within its shape, a client has a reply to the next request of each of its threads
/// whose needs are met; so where a thread can't act, a need of it isn't met.
pub fn replies_are_there()
    ensures { RepliesAreThere }
{}

/// What a thread has private or has published in its open block, it made; it has it once, no record that was sent
/// publishes it, and no other thread has it so.
pub fn objects_in_hand_are_own()
    ensures { ObjectsInHandAreOwn }
{}

/// Each object that a record publishes, as it comes, has an id that was given to the record's client, and isn't in the
/// server's graph.
pub fn news_are_new()
    ensures { NewsAreNew }
{}

/// A record that comes has the objects that it publishes by rising id, and its sets by rising object and field.
pub fn records_are_sorted()
    ensures { RecordsAreSorted }
{}

/// A record that comes, also of a lost client, is light: the objects that it publishes, its notifications, and the values of its
/// objects, its sets and what it printed are together no more than the entries weigh.
pub fn records_are_light()
    ensures { RecordsAreLight }
{}

/// By a client's entries each thread's events are those of its ended blocks and then its open block, its locks and private
/// objects are those that these make; and the records that the client sent are those of its ended blocks.
pub fn blocks_are_kept()
    ensures { BlocksAreKept }
{}

/// For each client that isn't lost: the records in flight are those that it sent and the server didn't take.
pub fn blocks_are_handed_in()
    ensures { BlocksAreHandedIn }
{}

/// The history has of each client, a lost one too, the blocks of its first endings, as many as the server took records of it, in
/// order and nothing else, each notification that left the choice to the server with whom it chose. Clause `events`: of each
/// thread the events of these. Clause `as_made`: without waits just as the threads made them.
pub fn histories_hold_blocks()
    ensures blocks { HistoriesHoldBlocks }
    ensures events { HistoriesHoldEvents }
    ensures as_made { HistoriesHoldBlocksAsMade }
{}

/// What a thread has in hand (its private objects; what its block published and set) tells what the block made of the one heap,
/// wherever it runs from.
pub fn works_tell()
    ensures { WorksTell }
{}

/// After a history in which threads name only what they were told, what a thread can name is its own or shared; and each object
/// but object 0 was made in the history.
pub fn names_stay_known()
    ensures known { NamesStayKnown }
    ensures made { ObjectsAreMade }
{}

/// What a client answers a thread, the one heap allows, whatever is marked, where the client's readings are true of it.
pub fn acts_are_possible()
    ensures { ActsArePossible }
{}

/// After a journal of a sound program, whatever is marked: the history as made runs; of each client that isn't lost the blocks in
/// flight to the server can run after it, with what they hold and touch within the client's leases there; each thread's open block
/// can run behind them; and each copy is a past value, not older than what the client's threads have seen, and the heap's once all
/// in flight is taken, where no change overtakes a lease of the field's guard.
pub fn clients_stand()
    ensures { ClientsStand }
{}

/// Of a sound program, whatever waits and is lost: for each thread of a client that isn't lost and each lock, each message in
/// flight between its client and the server may come where the thread stands among the waiters of the lock, and once all are taken
/// both ends say the same: it is kept in its client's list, gone to the server, or away.
pub fn waiters_are_tokens()
    ensures { WaitersAreTokens }
{}

/// After a journal of a sound program the unmarked waiters of a lock in the one heap are those that the client with the lock at
/// Write keeps in its list and those of the server's list, each in one of them and once; of a lost client there are none.
pub fn waiters_are_known()
    ensures { WaitersAreKnown }
{}

/// After such a journal the server has a body of exactly the shared objects, with the values that they have in the one heap.
pub fn store_is_heap()
    ensures { StoreIsHeap }
{}

/// The code of a thread's machine, where it is sound, is a sound program: its threads name only what they were told, leave only
/// locks that they hold, tick, time out (once for a wait) and resume only where they wait, end holding none, make only what
/// the classes have, and go by the replies alone. Clause `texts`: they store and print no text but the program's and those that
/// they read. Clause `within`: they read and write only places that they looked at, roots that are there and values that fit;
/// by name they enter only locks that are there; and they print no object but those that they were told of.
pub fn sound_code_is_sound_program()
    ensures sound { SoundCodeIsSoundProgram }
    ensures texts { SoundCodeGivesKnownTexts }
    ensures within { SoundCodeStaysWithinShape }
{}

/// **The central law.** A lawful journal of a sound program, whatever clients it loses, commits a legal history, in which each thread
/// follows the program. Of each client, a lost one too, the history has the blocks of its first endings, in order and nothing else;
/// of each thread a prefix of its events, each once and in order; and where the journal is finished, all events of each thread
/// whose client isn't lost, but for whom the server chose to wake. Clause `as_made`: without waits, just as the threads made them.
pub fn central_law()
    ensures legal { CentralLaw }
    ensures as_made { CommitsWhatWasMade }
{}

/// **Clustered maps.** For settings and sound code of one shape, in the history that a lawful journal commits, whatever clients it
/// loses: each thread goes from call to call of maps, a call takes every reply, so none fails, and at the end no thread is inside
/// one, so no loss cuts a call in two. The completed calls of each map, in the order of their last events, are those of one finite map
/// that begins empty, and that the map's fields hold at the end.
pub fn maps_are_one_map()
    ensures { MapsAreOneMap }
{}
