//! A client's ids for new objects (`specs/Ids.antt`).
ghost use Rattle.std.specs.Prelude.{◌≡◌, ◌+◌, ◌^◌, ◌<◌};
ghost use Rattle.dso_ids.specs.Ids.{IsEmpty, first_left, without_first, filled};

use std::marker::Model;

/// The ids that a client has left for new objects, rising.
///
/// They are those of the batch that the server gave last, without those that were taken. Of a pool that is empty the
/// next id is the one behind the last that it had, and 1 where it never had any.
#[derive(Drop)]
pub struct IdPool {
    next: u64,
    end: u64,
}

impl Model for IdPool {
    ghost use Rattle.std.specs.Prelude.{◌≤◌};
    ghost use Rattle.dso_ids.specs.Ids.{Ids, ids_code};

    ghost Value = { Ids };

    ghost coded = { ids_code };

    ghost view = { λ pool. record { next = pool.next; end = pool.end } };

    ghost invariant = { λ pool. pool.next ≤ pool.end };
}

impl IdPool {
    /// The empty pool.
    pub fn new() -> IdPool
        ensures { result ≡ record { next = 1; end = 1 } }
    {
        IdPool { next: 1, end: 1 }
    }

    /// Takes the least id left; None, with nothing changed, exactly where none is left. It takes no memory.
    pub fn take(&mut self) -> Option<u64>
        ensures first { result ≡ first_left self.old }
        ensures left { self.new ≡ without_first self.old }
    {
        if self.next < self.end {
            let id = self.next;
            self.next += 1;
            Some(id)
        } else {
            None
        }
    }

    /// Fills the empty pool with the batch of this first id. It takes no memory.
    pub fn refill(&mut self, first: u64)
        requires empty { IsEmpty self.old }
        requires fits { first + 256 < 2 ^ 64 }
        ensures { self.new ≡ filled first }
    {
        self.next = first;
        self.end = first + 256;
    }

    /// The next id, be it left or not. It takes no memory.
    pub fn next(&self) -> u64
        ensures { result ≡ self.now.next }
    {
        self.next
    }

    /// The id behind the last one. The pool is empty where it is the next id. It takes no memory.
    pub fn end(&self) -> u64
        ensures { result ≡ self.now.end }
    {
        self.end
    }
}
