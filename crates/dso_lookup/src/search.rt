//! The search for what is found from a value through the private objects of a thread (`specs/Search.antt`).
ghost use Rattle.std.specs.Prelude.{ℕ, ◌≡◌, ◌↔◌, Bool, List, true, IfOk, OnOk, IsTrue};
ghost use Rattle.std.specs.BTreeSet.{contains};
ghost use Rattle.std.specs.Ordering.{nat_cmp};
ghost use Rattle.dso_base.specs.Reach.{Reached};
ghost use Rattle.dso_lookup.specs.Search.{is_listed, reference_in, with_found, with_all_found, IsSetOf, IsLookedAt};

use dso_base::{NoMemory, Value};
use std::alloc::Global;
use std::collections::BTreeSet;

/// The private objects of one thread, and what they name.
pub trait PrivateObjects {
    /// Whether the object of an id is private to the thread.
    ghost mine: { Self → ℕ → Bool };

    /// Whether a field of the first object names the second.
    ghost names: { Self → ℕ → ℕ → Bool };

    /// A list that has all private objects: there are not without end.
    ghost objects: { Self → List ℕ };

    /// Whether the object is private to the thread. It takes no memory.
    fn is_private(&self, object: u64) -> bool
        ensures { result ≡ mine self.now object };

    /// The objects that the fields of a private object name, in any order, and each as often as it is named. It
    /// answers `NoMemory` where an allocation was refused.
    fn named(&self, alloc: Global, object: u64) -> Result<Vec<u64>, NoMemory>
        ensures { IfOk result (λ named. (o : ℕ) → is_listed o named.items ≡ names self.now object o) };

    /// The list has each private object.
    ghost listed: { (privates : Self) (o : ℕ) → mine privates o ≡ true → is_listed o (objects privates) ≡ true };
}

/// Adds the object to what was found, if it is private and was not found yet.
fn add_found<P: PrivateObjects>(
    privates: &P,
    object: u64,
    seen: &mut BTreeSet<u64>,
    found: &mut Vec<u64>,
) -> Result<(), NoMemory>
    requires { IsSetOf seen.old found.old.items }
    ensures found { OnOk result (found.new.items ≡ with_found (P.mine privates.now) found.old.items object) }
    ensures seen { OnOk result (IsSetOf seen.new found.new.items) }
{
    if privates.is_private(object) && seen.insert(object)? {
        found.push(object)?;
    }
    Ok(())
}

/// Adds those of the objects that are private and were not found yet.
fn add_all_found<P: PrivateObjects>(
    privates: &P,
    objects: &[u64],
    seen: &mut BTreeSet<u64>,
    found: &mut Vec<u64>,
) -> Result<(), NoMemory>
    requires { IsSetOf seen.old found.old.items }
    ensures found { OnOk result (found.new.items ≡ with_all_found (P.mine privates.now) objects.now found.old.items) }
    ensures seen { OnOk result (IsSetOf seen.new found.new.items) }
{
    for object in objects {
        add_found(privates, *object, seen, found)?;
    }
    Ok(())
}

/// Adds the private objects that the fields of a private object name.
fn look_at<P: PrivateObjects>(
    alloc: Global,
    privates: &P,
    object: u64,
    seen: &mut BTreeSet<u64>,
    found: &mut Vec<u64>,
) -> Result<(), NoMemory>
    requires { IsSetOf seen.old found.old.items }
    ensures found { OnOk result (IsLookedAt (P.mine privates.now) (P.names privates.now) object found.old.items found.new.items) }
    ensures seen { OnOk result (IsSetOf seen.new found.new.items) }
{
    let named = privates.named(alloc, object)?;
    add_all_found(privates, named.as_slice(), seen, found)
}

/// The object that a value names, if any.
fn named_by(alloc: Global, value: Value) -> Result<Vec<u64>, NoMemory>
    ensures { IfOk result (λ named. named.items ≡ reference_in value) }
{
    let mut named = Vec::new(alloc);
    if let Value::Ref(object) = value {
        named.push(object)?;
    }
    Ok(named)
}

/// The private objects that are found from a value: the one that it names, if that is private, and those that the
/// fields of private objects so found name. Each is looked at once, so it costs as many look-ups as those objects have
/// references.
///
/// It answers `NoMemory` where an allocation was refused.
pub fn reached_from<P: PrivateObjects>(
    alloc: Global,
    privates: &P,
    value: Value,
) -> Result<BTreeSet<u64>, NoMemory>
    ensures { IfOk result (λ reached. (o : ℕ) → IsTrue (contains nat_cmp reached o) ↔ Reached (P.mine privates.now) (P.names privates.now) value o) }
{
    let mut seen = BTreeSet::new(alloc);
    let mut found = Vec::new(alloc);
    let first = named_by(alloc, value)?;
    add_all_found(privates, first.as_slice(), &mut seen, &mut found)?;
    let mut next = 0;
    while next < found.len() {
        let object = found[next];
        look_at(alloc, privates, object, &mut seen, &mut found)?;
        next += 1;
    }
    Ok(seen)
}
