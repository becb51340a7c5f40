//! The server's batches of ids (`specs/Ids.antt`).
ghost use Rattle.std.specs.Prelude.{◌≡◌, ◌+◌, ◌^◌, ◌<◌};
ghost use Rattle.dso_ids.specs.Ids.{first_of_batch};

use std::marker::Model;

/// The source of all ids of the cluster. Contracts see how many batches it gave.
#[derive(Drop)]
pub struct IdSource {
    given: u64,
}

impl Model for IdSource {
    ghost use Rattle.std.specs.Prelude.{ℕ};
    ghost use Rattle.std.specs.Coded.{coded_ℕ};

    ghost Value = { ℕ };

    ghost coded = { coded_ℕ };

    ghost view = { λ source. source.given };
}

impl IdSource {
    /// The source that gave no batch yet.
    pub fn new() -> IdSource
        ensures { result ≡ 0 }
    {
        IdSource { given: 0 }
    }

    /// Gives the next batch of 256 ids, and answers its first one: 1, then 257, and so on. It takes no memory.
    pub fn batch(&mut self) -> u64
        requires { first_of_batch self.old < 2 ^ 63 }
        ensures first { result ≡ first_of_batch self.old }
        ensures given { self.new ≡ self.old + 1 }
    {
        let first = 1 + 256 * self.given;
        self.given += 1;
        first
    }

    /// How many batches it gave. It takes no memory.
    pub fn given(&self) -> u64
        ensures { result ≡ self.now }
    {
        self.given
    }
}
