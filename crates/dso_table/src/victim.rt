//! The object that is flushed next (`specs/Victims.antt`).
ghost use Rattle.std.specs.Prelude.{ℕ, ◌≡◌, true, IfNone, IfSome};
ghost use Rattle.dso_lookup.specs.Search.{is_listed};
ghost use Rattle.dso_table.specs.ObjectTables.{state_in, TablesAgree};
ghost use Rattle.dso_table.specs.Victims.{IsFlushable, IsLeastUnused, IsLeastRecent, IsVictim, NoVictim};

use crate::flush::is_flushable;
use crate::order;
use crate::tables::ObjectTables;

/// The flushable object of least id that isn't among those used last.
fn least_unused(tables: &ObjectTables) -> Option<u64>
    requires { TablesAgree tables.now }
    ensures none { IfNone result ((o : ℕ) → IsFlushable (state_in tables.now) o → is_listed o (state_in tables.now).used ≡ true) }
    ensures least { IfSome result (IsLeastUnused (state_in tables.now)) }
{
    for object in tables.order.others.iter() {
        if is_flushable(tables, *object) {
            return Some(*object);
        }
    }
    None
}

/// The flushable object that was used longest ago, where each flushable one is among those used last.
fn least_recent(tables: &ObjectTables) -> Option<u64>
    requires { (o : ℕ) → IsFlushable (state_in tables.now) o → is_listed o (state_in tables.now).used ≡ true }
    ensures none { IfNone result ((o : ℕ) → IsFlushable (state_in tables.now) o → ⊥) }
    ensures least { IfSome result (IsLeastRecent (state_in tables.now)) }
{
    let Some(recent) = &tables.order.recent else {
        return None;
    };
    for (object, _) in recent.iter().rev() {
        if is_flushable(tables, *object) {
            return Some(*object);
        }
    }
    None
}

/// The object that is flushed next: where more objects are resident than the client is to keep, the flushable one of least
/// id that isn't among those used last, else the flushable one that was used longest ago. It costs the number of resident
/// objects that may not be flushed, times a logarithm.
pub(crate) fn victim(tables: &ObjectTables) -> Option<u64>
    requires { TablesAgree tables.now }
    ensures none { IfNone result (NoVictim (state_in tables.now)) }
    ensures victim { IfSome result (IsVictim (state_in tables.now)) }
{
    if order::number(&tables.order) <= order::limit(&tables.order) {
        return None;
    }
    match least_unused(tables) {
        Some(object) => Some(object),
        None => least_recent(tables),
    }
}
