//! The threads that wait for a notification, in the order of their waits (`specs/Waiters.antt`).
ghost use Rattle.std.specs.Prelude.{◌≡◌, [], ◌∷◌, ◌++◌, drop, slice_get, OnOk, OnErr};
ghost use Rattle.dso_wait.specs.Waiters.{is_listed, without, without_client};

use dso_base::{NoMemory, ThreadId};
use std::alloc::Global;
use std::marker::Model;

/// A list of threads, which contracts see as one. A thread is added at the end and taken out at the front.
#[derive(Drop)]
pub struct WaitList {
    threads: Vec<ThreadId>,
}

impl Model for WaitList {
    ghost use Rattle.std.specs.Prelude.{List};
    ghost use Rattle.dso_base.specs.declared.lock.ThreadId.{ThreadId};

    ghost Value = { List ThreadId };

    ghost view = { λ list. list.threads.items };
}

impl WaitList {
    /// The empty list.
    pub fn new(alloc: Global) -> WaitList
        ensures { result ≡ [] }
    {
        WaitList {
            threads: Vec::new(alloc),
        }
    }

    /// Puts the thread at the end. It answers `NoMemory` where an allocation was refused, and the list is then as
    /// before.
    pub fn add(&mut self, thread: ThreadId) -> Result<(), NoMemory>
        ensures ok { OnOk result (self.new ≡ self.old ++ thread ∷ []) }
        ensures err { OnErr result (self.new ≡ self.old) }
    {
        self.threads.push(thread)?;
        Ok(())
    }

    /// Takes out the first thread, None exactly where there is none. It takes no memory.
    pub fn pick(&mut self) -> Option<ThreadId>
        ensures first { result ≡ slice_get self.old 0 }
        ensures rest { self.new ≡ drop 1 self.old }
    {
        if self.threads.is_empty() {
            None
        } else {
            Some(self.threads.remove(0))
        }
    }

    /// Takes out the thread, wherever it stands, and leaves the others in order. False, with nothing changed, exactly
    /// where it isn't in the list. It takes no memory.
    pub fn remove(&mut self, thread: ThreadId) -> bool
        ensures found { result ≡ is_listed thread self.old }
        ensures others { self.new ≡ without thread self.old }
    {
        let found = self.threads.contains(&thread);
        self.threads.retain(|listed| *listed != thread);
        found
    }

    /// Takes out all threads of the client, and leaves the others in order. It takes no memory.
    pub fn drop_client(&mut self, client: u8)
        ensures { self.new ≡ without_client client self.old }
    {
        self.threads.retain(|listed| listed.client != client);
    }

    /// Hands over all threads in order, and leaves the list empty. It takes no memory.
    pub fn move_out(&mut self) -> Vec<ThreadId>
        ensures all { result.items ≡ self.old }
        ensures none { self.new ≡ [] }
    {
        let alloc = *self.threads.allocator();
        std::mem::replace(&mut self.threads, Vec::new(alloc))
    }

    /// All threads in order. It takes no memory.
    pub fn all(&self) -> &[ThreadId]
        ensures { result.now ≡ self.now }
    {
        self.threads.as_slice()
    }
}
