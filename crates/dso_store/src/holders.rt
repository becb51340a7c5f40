//! Which client holds which object (`specs/Graph.antt`).
ghost use Rattle.std.specs.Prelude.{◌≡◌, true, false, cond, eqb, OnOk};
ghost use Rattle.dso_store.specs.Graph.{holds_by, with_holder};

use dso_base::{Body, NoMemory};
use dso_lookup::{find_in, insert_in, remove_in, take};
use std::alloc::Global;
use std::collections::BTreeMap;

/// The objects that each client holds.
pub type Holders = BTreeMap<u8, BTreeMap<u64, ()>>;

/// Whether the client holds the object. It takes no memory.
pub(crate) fn is_holder(holders: &Holders, client: u8, object: u64) -> bool
    ensures { result ≡ holds_by holders.now client object }
{
    find_in(holders, &client, &object).is_some()
}

/// The client holds the object.
pub(crate) fn add_holder(
    alloc: Global,
    holders: &mut Holders,
    client: u8,
    object: u64,
) -> Result<(), NoMemory>
    ensures { OnOk result (holds_by holders.new ≡ (λ c o. cond (eqb c client) (cond (eqb object o) true (holds_by holders.old c o)) (holds_by holders.old c o))) }
{
    insert_in(alloc, holders, client, object, ())
}

/// The client doesn't hold the object any longer. It takes no memory.
pub(crate) fn drop_holder(holders: &mut Holders, client: u8, object: u64)
    ensures { holds_by holders.new ≡ (λ c o. cond (eqb c client) (cond (eqb object o) false (holds_by holders.old c o)) (holds_by holders.old c o)) }
{
    remove_in(holders, &client, &object);
}

/// The client holds no object any longer. It takes no memory.
pub(crate) fn drop_client(holders: &mut Holders, client: u8)
    ensures { holds_by holders.new ≡ (λ c o. cond (eqb c client) false (holds_by holders.old c o)) }
{
    let _ = take(holders, &client);
}

/// The client holds the objects of the bodies.
pub(crate) fn add_all(
    alloc: Global,
    holders: &mut Holders,
    client: u8,
    news: &[Body],
) -> Result<(), NoMemory>
    ensures { OnOk result (holds_by holders.new ≡ with_holder client news.now (holds_by holders.old)) }
{
    for body in news {
        add_holder(alloc, holders, client, body.object)?;
    }
    Ok(())
}
