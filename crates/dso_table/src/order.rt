//! The order in which a client's objects were used (`specs/States.antt`).
ghost use Rattle.std.specs.Prelude.{ℕ, ◌≡◌, ◌+◌, ◌-◌, ◌<◌, ◌∷◌, [], length, take, drop, true, false, IfOk, OnOk, OnErr};
ghost use Rattle.std.specs.Map.{keys_of};
ghost use Rattle.std.specs.Ordering.{nat_cmp};
ghost use Rattle.std.specs.BTreeSet.{contains};
ghost use Rattle.lru.specs.LruCache.{lru_cache};
ghost use Rattle.dso_lookup.specs.Search.{is_listed};
ghost use Rattle.dso_table.specs.States.{without, with_at};
ghost use Rattle.dso_table.specs.ObjectTables.{used_in, limit_in, is_ordered, number_in, JoinedBy, OrderAgrees};

use dso_base::NoMemory;
use lru::LruCache;
use std::alloc::Global;
use std::collections::BTreeSet;
use std::num::NonZeroUsize;

/// The objects used last, no more than are to be kept, and the others, by rising id. Where none is to be kept, all are
/// others.
#[derive(Drop)]
pub struct Order {
    pub recent: Option<LruCache<u64, ()>>,
    pub others: BTreeSet<u64>,
}

/// No object. So many are to be kept of those used last.
pub(crate) fn new(alloc: Global, limit: u32) -> Result<Order, NoMemory>
    ensures used { IfOk result (λ order. used_in order ≡ []) }
    ensures limit { IfOk result (λ order. limit_in order ≡ limit) }
    ensures ordered { IfOk result (λ order. is_ordered order ≡ (λ _. false)) }
    ensures number { IfOk result (λ order. number_in order ≡ 0) }
    ensures agrees { IfOk result OrderAgrees }
{
    let recent = match NonZeroUsize::new(limit as usize) {
        Some(most) => Some(LruCache::sparse(alloc, most)?),
        None => None,
    };
    Ok(Order {
        recent,
        others: BTreeSet::new(alloc),
    })
}

/// How many objects there are.
pub(crate) fn number(order: &Order) -> usize
    ensures { result ≡ number_in order.now }
{
    let recent = match &order.recent {
        Some(recent) => recent.len(),
        None => 0,
    };
    order.others.len() + recent
}

/// How many objects are to be kept of those used last.
pub(crate) fn limit(order: &Order) -> usize
    ensures { result ≡ limit_in order.now }
{
    match &order.recent {
        Some(recent) => recent.cap().get(),
        None => 0,
    }
}

/// Adds an object that is new, as one that wasn't used. It answers `NoMemory` where an allocation was refused, and the
/// order is then as before.
pub(crate) fn add(order: &mut Order, object: u64) -> Result<(), NoMemory>
    requires agrees { OrderAgrees order.old }
    requires absent { is_ordered order.old object ≡ false }
    ensures used { used_in order.new ≡ used_in order.old }
    ensures limit { limit_in order.new ≡ limit_in order.old }
    ensures ordered { OnOk result (is_ordered order.new ≡ with_at object true (is_ordered order.old)) }
    ensures number { OnOk result (number_in order.new ≡ number_in order.old + 1) }
    ensures same { OnErr result (is_ordered order.new ≡ is_ordered order.old) }
    ensures same_number { OnErr result (number_in order.new ≡ number_in order.old) }
    ensures agrees { OrderAgrees order.new }
{
    order.others.insert(object)?;
    Ok(())
}

/// Takes out an object that is in the order. It takes no memory.
pub(crate) fn take_out(order: &mut Order, object: u64)
    requires agrees { OrderAgrees order.old }
    requires there { is_ordered order.old object ≡ true }
    ensures used { used_in order.new ≡ without object (used_in order.old) }
    ensures limit { limit_in order.new ≡ limit_in order.old }
    ensures ordered { is_ordered order.new ≡ with_at object false (is_ordered order.old) }
    ensures number { number_in order.new ≡ number_in order.old - 1 }
    ensures agrees { OrderAgrees order.new }
{
    order.others.remove(&object);
    if let Some(recent) = &mut order.recent {
        recent.pop(&object);
    }
}

/// Puts a new object before those used last, where there are as many as are kept, and lets go of the one that was used
/// longest ago: it joins the others. It answers `NoMemory` where an allocation was refused, and both are then as before.
fn push_full(
    recent: &mut LruCache<u64, ()>,
    others: &mut BTreeSet<u64>,
    object: u64,
) -> Result<(), NoMemory>
    requires full { length recent.old.entries ≡ recent.old.cap }
    requires some { 0 < recent.old.cap }
    requires new { is_listed object (keys_of recent.old.entries) ≡ false }
    requires apart { (p : ℕ) → is_listed p (keys_of recent.old.entries) ≡ true → contains nat_cmp others.old p ≡ false }
    ensures pushed { OnOk result (recent.new ≡ lru_cache ((object, tt) ∷ take (recent.old.cap - 1) recent.old.entries) recent.old.cap) }
    ensures joined { OnOk result (JoinedBy (drop (recent.old.cap - 1) (keys_of recent.old.entries)) others.old others.new) }
    ensures same { OnErr result (recent.new ≡ recent.old) }
    ensures same_others { OnErr result (JoinedBy [] others.old others.new) }
{
    let Some((last, _)) = recent.peek_lru() else {
        return Ok(());
    };
    let last = *last;
    others.insert(last)?;
    match recent.push(object, ()) {
        Ok(_) => Ok(()),
        Err(refused) => {
            others.remove(&last);
            Err(refused.into())
        }
    }
}

/// Puts a new object before those used last. One that there is no room for then joins the others. It answers `NoMemory`
/// where an allocation was refused, and both are then as before.
fn push(
    recent: &mut LruCache<u64, ()>,
    others: &mut BTreeSet<u64>,
    object: u64,
) -> Result<(), NoMemory>
    requires new { is_listed object (keys_of recent.old.entries) ≡ false }
    requires apart { (p : ℕ) → is_listed p (keys_of recent.old.entries) ≡ true → contains nat_cmp others.old p ≡ false }
    ensures some { 0 < recent.old.cap }
    ensures pushed { OnOk result (recent.new ≡ lru_cache ((object, tt) ∷ take (recent.old.cap - 1) recent.old.entries) recent.old.cap) }
    ensures joined { OnOk result (JoinedBy (drop (recent.old.cap - 1) (keys_of recent.old.entries)) others.old others.new) }
    ensures same { OnErr result (recent.new ≡ recent.old) }
    ensures same_others { OnErr result (JoinedBy [] others.old others.new) }
{
    if recent.len() < recent.cap().get() {
        recent.push(object, ())?;
        return Ok(());
    }
    push_full(recent, others, object)
}

/// Puts an object that is in the order before all others: it is the one used last. It answers `NoMemory` where an
/// allocation was refused, and the order is then as before.
pub(crate) fn touch(order: &mut Order, object: u64) -> Result<(), NoMemory>
    requires agrees { OrderAgrees order.old }
    requires there { is_ordered order.old object ≡ true }
    ensures used { OnOk result (used_in order.new ≡ take (limit_in order.old) (object ∷ without object (used_in order.old))) }
    ensures same { OnErr result (used_in order.new ≡ used_in order.old) }
    ensures limit { limit_in order.new ≡ limit_in order.old }
    ensures ordered { is_ordered order.new ≡ is_ordered order.old }
    ensures number { number_in order.new ≡ number_in order.old }
    ensures agrees { OrderAgrees order.new }
{
    let Some(recent) = &mut order.recent else {
        return Ok(());
    };
    if recent.contains(&object) {
        recent.promote(&object);
        return Ok(());
    }
    push(recent, &mut order.others, object)?;
    order.others.remove(&object);
    Ok(())
}
