//! The batches of ids that the server gave (`dso_law/specs/ServerReadings.antt`).
ghost use Rattle.std.specs.Prelude.{◌≡◌, ◌<◌, ◌^◌, [], ◌∷◌, length, eqb, ◌&&◌, IfOk, OnOk, OnErr};
ghost use Rattle.std.specs.List.{list_any};
ghost use Rattle.dso_ids.specs.Ids.{first_of_batch};
ghost use Rattle.dso_law.specs.ServerReadings.{is_in_batch};
ghost use Rattle.dso_server.specs.Batches.{batches_to};

use dso_base::{Items, NoMemory};
use dso_ids::IdSource;
use std::alloc::Global;
use std::marker::Model;

/// How many ids are in a batch.
const BATCH_SIZE: u64 = 256;

/// The batches that were given so far. Contracts see the clients that they were given to, the latest first.
#[derive(Drop)]
pub struct Batches {
    source: IdSource,
    owners: Items<u8>,
}

impl Model for Batches {
    ghost use Rattle.std.specs.Prelude.{ℕ, ◌≡◌, List, length, reverse};

    ghost Value = { List ℕ };

    ghost view = { λ batches. reverse batches.owners };

    ghost invariant = { λ batches. batches.source ≡ length batches.owners };
}

impl Batches {
    /// No batch was given.
    pub fn new(alloc: Global) -> Batches
        ensures { result ≡ [] }
    {
        Batches {
            source: IdSource::new(),
            owners: Items::new(alloc),
        }
    }

    /// Gives the next batch to the client, and answers its first id. It answers `NoMemory` where an allocation was
    /// refused, and nothing is given then.
    pub fn give(&mut self, client: u8) -> Result<u64, NoMemory>
        requires { first_of_batch (length self.old) < 2 ^ 63 }
        ensures first { IfOk result (λ first. first ≡ first_of_batch (length self.old)) }
        ensures given { OnOk result (self.new ≡ client ∷ self.old) }
        ensures err { OnErr result (self.new ≡ self.old) }
    {
        self.owners.push(client)?;
        Ok(self.source.batch())
    }

    /// How many batches were given. It takes no memory.
    pub fn given(&self) -> u64
        ensures { result ≡ length self.now }
    {
        self.source.given()
    }

    /// Whether the id was given to a client. It takes no memory.
    pub fn is_given(&self, object: u64) -> bool
        ensures { result ≡ list_any (is_in_batch object) (batches_to self.now) }
    {
        object != 0 && (object - 1) / BATCH_SIZE < self.source.given()
    }

    /// Whether the id was given to this client. It takes no memory.
    pub fn is_given_to(&self, client: u8, object: u64) -> bool
        ensures { result ≡ list_any (λ batch. eqb batch.client client && is_in_batch object batch) (batches_to self.now) }
    {
        if object == 0 {
            return false;
        }
        match self.owners.get(((object - 1) / BATCH_SIZE) as usize) {
            Some(owner) => *owner == client,
            None => false,
        }
    }
}
