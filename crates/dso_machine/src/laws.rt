//! What the machine's definitions say of every thread's run: how it leaves its locks, how it waits, and how it calls maps.

ghost use Rattle.std.specs.Prelude.{◌≡◌, [], ◌∷◌, ◌++◌, List, Option, Some};
ghost use Rattle.dso_base.specs.declared.lock.LockName.{LockName};
ghost use Rattle.dso_base.specs.declared.lock.ThreadId.{ThreadId};
ghost use Rattle.dso_base.specs.declared.request.Event.TheVariants as event;
ghost use Rattle.dso_base.specs.declared.request.Event.{Event};
ghost use Rattle.dso_base.specs.declared.request.Fault.{Fault};
ghost use Rattle.dso_base.specs.declared.request.Reply.TheVariants as reply;
ghost use Rattle.dso_base.specs.declared.request.Request.TheVariants as request;
ghost use Rattle.dso_base.specs.declared.request.Request.{Request};
ghost use Rattle.dso_machine.specs.declared.code.Code.{Code};
ghost use Rattle.dso_machine.specs.declared.code.ThreadBody.{ThreadBody};
ghost use Rattle.dso_machine.specs.Frames.{KeepsFrames, frames_after};
ghost use Rattle.dso_machine.specs.MapCalls.{MapsAreCalled};
ghost use Rattle.dso_machine.specs.Next.{body_of, next_request, replies_in};
ghost use Rattle.dso_machine.specs.Sound.{IsSoundCode};
ghost use Rattle.dso_machine.specs.Unwinding.{AreBehindExit, FailsAfter, FollowsCode, SettlesAsEntered, Unwinds, locks_after, outer};
ghost use Rattle.dso_machine.specs.WaitingThreads.{AsksAsItWaits, Awake, waiting_after};

/// A fault of a thread is followed by an Exit of each lock that it has, the innermost first, with Settle behind the Exit of each entry
/// at synchronous write, then by End with that fault, and then by nothing.
///
/// `refused` says it of a request that is refused, `failed` of a fault that the code itself makes; by `ended` a thread ends with a fault
/// only where its code is at it. All hold for every code.
pub fn faults_unwind()
    ensures refused { (code : Code) (t : ThreadId) (events : List Event) (q : Request) (fault : Fault) (woken : Option ThreadId)
        → FollowsCode code t (events ++ event.Act t q (reply.Refused fault) woken ∷ [])
        → Unwinds code t (events ++ event.Act t q (reply.Refused fault) woken ∷ []) fault }
    ensures failed { (code : Code) (t : ThreadId) (body : ThreadBody) (events : List Event) (fault : Fault)
        → body_of t code.bodies ≡ Some body
        → FollowsCode code t events
        → FailsAfter code body (replies_in events) fault
        → Unwinds code t events fault }
    ensures ended { (code : Code) (t : ThreadId) (body : ThreadBody) (events : List Event) (fault : Fault)
        → body_of t code.bodies ≡ Some body
        → FollowsCode code t events
        → next_request code t events ≡ Some (request.End (Some fault))
        → FailsAfter code body (replies_in events) fault }
{}

/// A thread leaves its locks in the opposite order of their entries, and ends when it has left all; after a wait it asks for its lock
/// again before all else but ticks and one timeout. This holds for every code.
///
/// By `waits` Tick, Timeout and Resume come only where the thread waits on that lock, and nothing else comes there; after a Timeout,
/// and after a Tick that told that the thread was woken, Resume comes next. By `settles` and `settles_only` Settle comes exactly behind
/// the Exit of an entry at synchronous write.
pub fn locks_nest()
    ensures exits { (code : Code) (t : ThreadId) (events : List Event) (l : LockName)
        → FollowsCode code t events
        → next_request code t events ≡ Some (request.Exit l)
        → locks_after [] events ≡ l ∷ outer (locks_after [] events) }
    ensures ends { (code : Code) (t : ThreadId) (events : List Event) (fault : Option Fault)
        → FollowsCode code t events
        → next_request code t events ≡ Some (request.End fault)
        → locks_after [] events ≡ [] }
    ensures waits { (code : Code) (t : ThreadId) (events : List Event)
        → FollowsCode code t events
        → AsksAsItWaits (waiting_after Awake events) (next_request code t events) }
    ensures settles { (code : Code) (t : ThreadId) (events : List Event) (l : LockName) (woken : Option ThreadId)
        → FollowsCode code t (events ++ event.Act t (request.Exit l) reply.Done woken ∷ [])
        → SettlesAsEntered code t events (next_request code t (events ++ event.Act t (request.Exit l) reply.Done woken ∷ [])) }
    ensures settles_only { (code : Code) (t : ThreadId) (events : List Event)
        → FollowsCode code t events
        → next_request code t events ≡ Some request.Settle
        → AreBehindExit events }
{}

/// A thread of sound code goes from call to call of maps: it calls what it saw to be a map, asks inside a call what the call asks, and
/// touches no map's field outside of calls. So it is whatever it is answered, of what is listed.
pub fn maps_are_called()
    ensures { MapsAreCalled }
{}

/// A thread of sound code holds nothing that it made up: after one more event each object that its frames hold, or that its next
/// request names, is object 0, or was so before, or is told by the reply.
///
/// `frames_after` is what the frames hold: in the body that runs its object and its variables, the values that were evaluated and aren't
/// used yet, the objects whose blocks are still to be left, and so those of the callers.
pub fn frames_are_kept()
    ensures { (code : Code) → IsSoundCode code → KeepsFrames (next_request code) (frames_after code) }
{}
