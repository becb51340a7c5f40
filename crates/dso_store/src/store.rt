//! The server's graph (`specs/Graph.antt`).
ghost use Rattle.std.specs.Prelude.{ℕ, ◌≡◌, false, None, Some, cond, eqb, is_some, OnOk, IfOk};
ghost use Rattle.std.specs.List.Sorted.{IsStrictlySortedBy};
ghost use Rattle.std.specs.Option.{option_copied};
ghost use Rattle.std.specs.Ordering.{nat_cmp};
ghost use Rattle.dso_base.specs.Block.{body_names};
ghost use Rattle.dso_base.specs.declared.journal.Input.TheVariants.{TookUp, Lose};
ghost use Rattle.dso_base.specs.declared.message.Up.TheVariants as up;
ghost use Rattle.dso_law.specs.ServerReadings.{number_by};
ghost use Rattle.dso_law.specs.Settings.{Settings};
ghost use Rattle.dso_law.specs.Store.{opening_roots, body_by, held_by};
ghost use Rattle.dso_lookup.specs.Search.{has_edge, is_listed};
ghost use Rattle.dso_store.specs.Changes.{messages_of};
ghost use Rattle.dso_store.specs.Collecting.{count_there, without};
ghost use Rattle.dso_store.specs.Graph.{body_in, holds_in, last_in, changes_by, AreClients};

use crate::bodies::{add_news, opening_bodies, set_all};
use crate::changes::changes_of;
use crate::collecting::{edges_in, objects_in, take_bodies};
use crate::holders::{Holders, add_all, add_holder, drop_client, drop_holder, is_holder};
use dso_base::{Body, NoMemory, Set, Shape, Txn};
use dso_lookup::put;
use std::alloc::Global;
use std::collections::BTreeMap;

/// The graph of the server: the body of each object (`body_in`), which client holds which object (`holds_in`), and the
/// number of the last record of each client (`last_in`).
///
/// A call costs the logarithm of the number of objects, for each object and value that it is given. After `NoMemory` the
/// store is spent: what it has is not told.
#[derive(Drop)]
pub struct Store {
    bodies: BTreeMap<u64, Body>,
    holders: Holders,
    numbers: BTreeMap<u8, u64>,
}

impl Store {
    /// Object 0 alone, of class Roots, with each root null. Nobody holds it, and no record was applied.
    ///
    /// It answers `NoMemory` where an allocation was refused.
    pub fn new(alloc: Global, shape: &Shape) -> Result<Store, NoMemory>
        ensures bodies { IfOk result (λ store. body_in store ≡ (λ o. cond (eqb o 0) (Some (opening_roots shape.now)) None)) }
        ensures holds { IfOk result (λ store. holds_in store ≡ (λ _ _. false)) }
        ensures last { IfOk result (λ store. last_in store ≡ (λ _. 0)) }
    {
        let bodies = opening_bodies(alloc, shape)?;
        Ok(Store {
            bodies,
            holders: BTreeMap::new(alloc),
            numbers: BTreeMap::new(alloc),
        })
    }

    /// Applies a record of the client: its news are added, then its sets written, the latest value of each field; the
    /// client holds the news, and the record is its last one.
    ///
    /// It answers `NoMemory` where an allocation was refused.
    pub fn apply(&mut self, alloc: Global, client: u8, txn: &Txn) -> Result<(), NoMemory>
        ensures bodies { OnOk result (body_in self.new ≡ (λ o. body_by o client (up.Commit txn.now) (body_in self.old o))) }
        ensures holds { OnOk result (holds_in self.new ≡ (λ c o. held_by c o (TookUp client (up.Commit txn.now)) (holds_in self.old c o))) }
        ensures last { OnOk result (last_in self.new ≡ (λ c. number_by c client (up.Commit txn.now) (last_in self.old c))) }
    {
        add_news(&mut self.bodies, txn.news.as_slice())?;
        set_all(alloc, &mut self.bodies, txn.sets.as_slice());
        add_all(alloc, &mut self.holders, client, txn.news.as_slice())?;
        put(&mut self.numbers, client, txn.seq)
    }

    /// The body of the object, None exactly where the graph has no such object. It takes no memory.
    pub fn object(&self, object: u64) -> Option<&Body>
        ensures { option_copied result ≡ body_in self.now object }
    {
        self.bodies.get(&object)
    }

    /// Whether the client holds the object. It takes no memory.
    pub fn holds(&self, client: u8, object: u64) -> bool
        ensures { result ≡ holds_in self.now client object }
    {
        is_holder(&self.holders, client, object)
    }

    /// The number of the client's last record that was applied, 0 before its first. It takes no memory.
    pub fn last(&self, client: u8) -> u64
        ensures { result ≡ last_in self.now client }
    {
        self.numbers.get(&client).copied().unwrap_or(0)
    }

    /// The client asked for the object, and holds it.
    ///
    /// It answers `NoMemory` where an allocation was refused.
    pub fn hold(&mut self, alloc: Global, client: u8, object: u64) -> Result<(), NoMemory>
        ensures bodies { body_in self.new ≡ body_in self.old }
        ensures holds { OnOk result (holds_in self.new ≡ (λ c o. held_by c o (TookUp client (up.Fault object)) (holds_in self.old c o))) }
        ensures last { last_in self.new ≡ last_in self.old }
    {
        add_holder(alloc, &mut self.holders, client, object)
    }

    /// The client flushed the object, and doesn't hold it any longer. It takes no memory.
    pub fn unhold(&mut self, client: u8, object: u64)
        ensures bodies { body_in self.new ≡ body_in self.old }
        ensures holds { holds_in self.new ≡ (λ c o. held_by c o (TookUp client (up.Flushed object)) (holds_in self.old c o)) }
        ensures last { last_in self.new ≡ last_in self.old }
    {
        drop_holder(&mut self.holders, client, object);
    }

    /// The client is lost, and holds nothing any longer. It takes no memory.
    pub fn lose(&mut self, client: u8)
        ensures bodies { body_in self.new ≡ body_in self.old }
        ensures holds { holds_in self.new ≡ (λ c o. held_by c o (Lose client) (holds_in self.old c o)) }
        ensures last { last_in self.new ≡ last_in self.old }
    {
        drop_client(&mut self.holders, client);
    }

    /// What other clients are to be told of the client's record: for each that holds some of the objects that it sets, by
    /// rising client, the sets of these objects, in the record's order. These are the changes that the server rule sends,
    /// for any cluster that has all holders.
    ///
    /// It answers `NoMemory` where an allocation was refused.
    pub fn others_holding(
        &self,
        alloc: Global,
        client: u8,
        txn: &Txn,
    ) -> Result<Vec<(u8, Vec<Set>)>, NoMemory>
        ensures { IfOk result (λ changes. (p : Settings) → AreClients p (holds_in self.now) → messages_of changes.items ≡ changes_by p client txn.now (holds_in self.now)) }
    {
        changes_of(alloc, &self.holders, client, txn)
    }

    /// An edge from each object that has a body to each object that its body names, one for each of its values that names
    /// it: whether an edge is listed is whether the first object's body names the second.
    ///
    /// It costs a step for each body and each value. It answers `NoMemory` where an allocation was refused.
    pub fn edges(&self, alloc: Global) -> Result<Vec<(u64, u64)>, NoMemory>
        ensures { IfOk result (λ edges. (a b : ℕ) → has_edge a b edges.items ≡ body_names (body_in self.now a) b) }
    {
        edges_in(alloc, &self.bodies)
    }

    /// The objects that have bodies, each once, by rising id.
    ///
    /// It costs a step for each body. It answers `NoMemory` where an allocation was refused.
    pub fn objects(&self, alloc: Global) -> Result<Vec<u64>, NoMemory>
        ensures rising { IfOk result (λ objects. IsStrictlySortedBy nat_cmp objects.items) }
        ensures there { IfOk result (λ objects. (o : ℕ) → is_listed o objects.items ≡ is_some (body_in self.now o)) }
    {
        objects_in(alloc, &self.bodies)
    }

    /// Drops the bodies of these objects, of which object 0 is none. Who holds them stays as it is, so a client may flush an
    /// object that was swept; of an object without a body nothing changes. It tells how many bodies it dropped: how many
    /// different objects of the list had one. It takes no memory.
    pub fn sweep(&mut self, ids: &[u64]) -> u64
        requires { is_listed 0 ids.now ≡ false }
        ensures bodies { body_in self.new ≡ without ids.now (body_in self.old) }
        ensures holds { holds_in self.new ≡ holds_in self.old }
        ensures last { last_in self.new ≡ last_in self.old }
        ensures count { result ≡ count_there (body_in self.old) ids.now }
    {
        take_bodies(&mut self.bodies, ids)
    }
}
