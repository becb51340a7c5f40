//! The values of an entry's keys, each of its kind and form (`specs/Keys.antt`).

ghost use Rattle.std.specs.Prelude.{◌≡◌, IfOk, IfErr, codes};
ghost use Rattle.toml.specs.View.{table_view};
ghost use Rattle.dso_config.specs.Entries.{guard_rules, guarded_of, locking_at, locking_fault, root_of, trigger_at, trigger_fault};
ghost use Rattle.dso_config.specs.Keys.{IsSaid, IsTold, form_at, form_fault};
ghost use Rattle.dso_config.specs.Spelling.{pattern_of, grade_of, name_of};
ghost use Rattle.dso_config.specs.declared.fault.ConfigFault.TheVariants as fault;

use crate::{AutoEntry, ConfigFault, GuardEntry, Pattern, RootEntry, Spot, keys, spelling};
use dso_base::{Grade, NoMemory, Trigger, Word};
use std::alloc::Global;
use toml::Table;

/// The latest message after which a client may be lost or cut off.
const LATEST_MESSAGE: u64 = 1_000_000;

/// The name at a key; the other fault where a text there is no name.
#[tactic(auto, using(crate::proofs::NoWant::untold))]
pub fn name_at(
    alloc: Global,
    table: &Table,
    key: &str,
    other: ConfigFault,
    spot: Spot,
) -> Result<Word, ConfigFault>
    ensures ok { IfOk result (IsSaid (form_at name_of key.now (table_view table.now))
        (form_fault spot other name_of key.now (table_view table.now))) }
    ensures err { IfErr result (IsTold (form_fault spot other name_of key.now (table_view table.now))) }
{
    let text = keys::text_at(table, key).ok_or(ConfigFault::WrongKind(spot))?;
    spelling::name(alloc, text)?.ok_or(other)
}

/// The pattern at a key; the other fault where a text there is no pattern.
#[tactic(auto, using(crate::proofs::NoWant::untold))]
fn pattern_at(
    alloc: Global,
    table: &Table,
    key: &str,
    other: ConfigFault,
    spot: Spot,
) -> Result<Pattern, ConfigFault>
    ensures ok { IfOk result (IsSaid (form_at pattern_of key.now (table_view table.now))
        (form_fault spot other pattern_of key.now (table_view table.now))) }
    ensures err { IfErr result (IsTold (form_fault spot other pattern_of key.now (table_view table.now))) }
{
    let text = keys::text_at(table, key).ok_or(ConfigFault::WrongKind(spot))?;
    spelling::pattern(alloc, text)?.ok_or(other)
}

/// The level at `level`.
fn grade_at(table: &Table, spot: Spot) -> Result<Grade, ConfigFault>
    ensures ok { IfOk result (IsSaid (form_at grade_of (codes "level") (table_view table.now))
        (form_fault spot (fault.OutOfRange spot) grade_of (codes "level") (table_view table.now))) }
    ensures err { IfErr result (IsTold (form_fault spot (fault.OutOfRange spot) grade_of (codes "level") (table_view table.now))) }
{
    let text = keys::text_at(table, "level").ok_or(ConfigFault::WrongKind(spot))?;
    spelling::grade(text).ok_or(ConfigFault::OutOfRange(spot))
}

/// The method pattern and the level of an entry.
pub fn locking(alloc: Global, table: &Table, spot: Spot) -> Result<AutoEntry, ConfigFault>
    ensures ok { IfOk result (IsSaid (locking_at (table_view table.now))
        (locking_fault spot (table_view table.now))) }
    ensures err { IfErr result (IsTold (locking_fault spot (table_view table.now))) }
{
    let method = pattern_at(
        alloc,
        table,
        "method",
        ConfigFault::BadMethodPattern(spot),
        spot,
    )?;
    let grade = grade_at(table, spot)?;
    Ok(AutoEntry { method, grade })
}

/// The static field that a text names, `Class.field`; None for another text.
fn root(alloc: Global, text: &str) -> Result<Option<RootEntry>, NoMemory>
    ensures { IfOk result (λ root. root ≡ root_of text.now) }
{
    match spelling::pattern(alloc, text)? {
        Some(Pattern::Method(class, field)) => Ok(Some(RootEntry { class, field })),
        _ => Ok(None),
    }
}

/// The static field at `field`.
#[tactic(auto, using(crate::proofs::NoWant::untold))]
pub fn root_at(alloc: Global, table: &Table, spot: Spot) -> Result<RootEntry, ConfigFault>
    ensures ok { IfOk result (IsSaid (form_at root_of (codes "field") (table_view table.now))
        (form_fault spot (fault.BadName spot) root_of (codes "field") (table_view table.now))) }
    ensures err { IfErr result (IsTold (form_fault spot (fault.BadName spot) root_of (codes "field") (table_view table.now))) }
{
    let text = keys::text_at(table, "field").ok_or(ConfigFault::WrongKind(spot))?;
    root(alloc, text)?.ok_or(ConfigFault::BadName(spot))
}

/// The fields that a guard is for.
type Guarded = (Word, Option<Word>);

/// The fields that a text names, `Class.field` or `Class.*`; None for another text.
fn fields(alloc: Global, text: &str) -> Result<Option<Guarded>, NoMemory>
    ensures { IfOk result (λ fields. fields ≡ guarded_of text.now) }
{
    Ok(match spelling::pattern(alloc, text)? {
        Some(Pattern::Method(class, field)) => Some((class, Some(field))),
        Some(Pattern::Class(class)) => Some((class, None)),
        _ => None,
    })
}

/// The fields at `field`.
#[tactic(auto, using(crate::proofs::NoWant::untold))]
fn fields_at(alloc: Global, table: &Table, spot: Spot) -> Result<Guarded, ConfigFault>
    ensures ok { IfOk result (IsSaid (form_at guarded_of (codes "field") (table_view table.now))
        (form_fault spot (fault.BadGuard spot) guarded_of (codes "field") (table_view table.now))) }
    ensures err { IfErr result (IsTold (form_fault spot (fault.BadGuard spot) guarded_of (codes "field") (table_view table.now))) }
{
    let text = keys::text_at(table, "field").ok_or(ConfigFault::WrongKind(spot))?;
    fields(alloc, text)?.ok_or(ConfigFault::BadGuard(spot))
}

/// The fields and the lock of a guard.
pub fn guard(alloc: Global, table: &Table, spot: Spot) -> Result<GuardEntry, ConfigFault>
    ensures ok { IfOk result (IsSaid (guard_rules.entry (table_view table.now))
        (guard_rules.fault spot (table_view table.now))) }
    ensures err { IfErr result (IsTold (guard_rules.fault spot (table_view table.now))) }
{
    let (class, field) = fields_at(alloc, table, spot)?;
    let lock = name_at(alloc, table, "lock", ConfigFault::BadGuard(spot), spot)?;
    Ok(GuardEntry { class, field, lock })
}

/// The client, one of so many, and the message after which it is lost or cut off.
pub fn trigger(table: &Table, clients: u8, spot: Spot) -> Result<Trigger, ConfigFault>
    ensures ok { IfOk result (IsSaid (trigger_at clients (table_view table.now))
        (trigger_fault clients spot (table_view table.now))) }
    ensures err { IfErr result (IsTold (trigger_fault clients spot (table_view table.now))) }
{
    let client = keys::number_at(table, "client");
    let client = keys::number(client, 1, u64::from(clients), spot)?;
    let after = keys::number_at(table, "after");
    let after = keys::number(after, 0, LATEST_MESSAGE, spot)?;
    Ok(Trigger {
        client: client as u8,
        after,
    })
}
