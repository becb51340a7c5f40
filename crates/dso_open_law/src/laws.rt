//! The laws of what an entry touches (`specs/TouchedThreads.antt`). Each is the contract of a function that does
//! nothing.
ghost use Rattle.dso_open_law.specs.OthersMayAct.{OthersMayAct};
ghost use Rattle.dso_open_law.specs.OtherThreadsStay.{OtherThreadsStay};
ghost use Rattle.dso_open_law.specs.FewTouched.{FewActOtherwise, WaitersAndCopiesAreSo, FewAreTouched};
ghost use Rattle.dso_open_law.specs.TouchesLittle.{ActsTouchWhatTheyDo, LightActsTouchNone, EntriesTouchTheirLock};

/// A thread of a client that an entry of the client doesn't touch may act after it exactly where it might before,
/// whatever the client's entries are.
pub fn others_may_act()
    ensures { OthersMayAct }
{}

/// So its slot is open in a journal with the entry exactly where it was open before.
pub fn other_threads_stay()
    ensures { OtherThreadsStay }
{}

/// Where a client's waiters are known and its copies are whole, fewer threads may act otherwise than before: what an
/// entry touches goes by the entry, by which lease the acting thread closes before and after it, and by whose record is
/// acknowledged.
pub fn few_act_otherwise()
    ensures { FewActOtherwise }
{}

/// So waiters and copies are in a lawful journal of a sound program.
pub fn waiters_and_copies_are_so()
    ensures { WaitersAndCopiesAreSo }
{}

/// So in such a journal the slot of a thread that isn't one of these few is open with an entry of its client exactly where
/// it was open before.
pub fn few_are_touched()
    ensures { FewAreTouched }
{}

/// In a run an act that ends no block touches no more than its event does.
pub fn acts_touch_what_they_do()
    ensures { ActsTouchWhatTheyDo }
{}

/// In a run a thread that looks, reads, writes or prints, and then closes no lease, touches no other thread.
pub fn light_acts_touch_none()
    ensures { LightActsTouchNone }
{}

/// In a run a thread that enters a lock, and then closes no lease, touches no others than those that ask about the lock.
pub fn entries_touch_their_lock()
    ensures { EntriesTouchTheirLock }
{}
