//! The flush of an object (`dso_table/specs/Victims.antt`).
ghost use Rattle.std.specs.Prelude.{◌≡◌, IfNone, IfSome};
ghost use Rattle.dso_table.specs.States.{flushed};
ghost use Rattle.dso_table.specs.ObjectTables.{state_in};
ghost use Rattle.dso_table.specs.Victims.{IsVictim, NoVictim};

use dso_table::Table;

/// Flushes the table's victim. None, with nothing changed, exactly where there is none. It takes no memory.
pub(crate) fn flush(table: &mut Table) -> Option<u64>
    ensures victim { IfSome result (IsVictim (state_in table.old)) }
    ensures flushed { IfSome result (λ object. state_in table.new ≡ flushed object (state_in table.old)) }
    ensures none { IfNone result (NoVictim (state_in table.old)) }
    ensures unchanged { IfNone result (table.new ≡ table.old) }
{
    match table.victim() {
        None => None,
        Some(object) => match table.flush(object) {
            Ok(()) => Some(object),
            Err(_) => unreachable!(),
        },
    }
}
