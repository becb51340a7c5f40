//! Threads by their names (`dso_base/specs/Following.antt`).
ghost use Rattle.std.specs.Prelude.{◌≡◌};
ghost use Rattle.dso_base.specs.Following.{is_thread};

use dso_base::ThreadId;

/// Whether the two threads are one. It takes no memory.
pub fn is_thread(thread: ThreadId, other: ThreadId) -> bool
    ensures { result ≡ is_thread thread other }
{
    other.client == thread.client && other.index == thread.index
}
