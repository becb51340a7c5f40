//! A section of a configuration: its entries by number (`specs/Sections.antt`).

ghost use Rattle.std.specs.Prelude.{◌≡◌, ◌≤◌, ◌<◌, [], map, length, Some, None, option_map, IsTrue, IfOk, IfErr};
ghost use Rattle.toml.specs.View.{table_view, view};
ghost use Rattle.dso_config.specs.InRange.{most_entries};
ghost use Rattle.dso_config.specs.Keys.{IsSaid, IsTold};
ghost use Rattle.dso_config.specs.Sections as spec;
ghost use Rattle.dso_config.specs.Sections.{AreEntries, SaysEntries, IsSection, IsSectionOrEmpty, section_fault};

use crate::rules::SectionRules;
use crate::{ConfigFault, Spot, keys};
use dso_base::Items;
use std::alloc::Global;
use toml::{Table, Value};

/// The most entries of a section.
const MOST_ENTRIES: usize = 1024;

/// Whether the entry says nothing that an earlier one said.
fn is_new<R: SectionRules>(rules: &R, before: &[R::Entry], entry: &R::Entry) -> bool
    ensures { result ≡ spec.is_new (R.rules rules.now) before.now entry.now }
{
    let mut before = before;
    while let [earlier, rest @ ..] = before {
        if rules.repeats(entry, earlier) {
            return false;
        }
        before = rest;
    }
    true
}

/// The entry that an item says behind these entries.
fn item<R: SectionRules>(
    alloc: Global,
    rules: &R,
    before: &[R::Entry],
    value: &Value,
) -> Result<R::Entry, ConfigFault>
    requires { length before.now ≤ most_entries }
    ensures ok { IfOk result (IsSaid (spec.entry_of (R.rules rules.now) (view value.now))
        (spec.item_fault (R.rules rules.now) before.now (view value.now))) }
    ensures few { IfOk result (λ _. length before.now < most_entries) }
    ensures new { IfOk result (λ entry. IsTrue (spec.is_new (R.rules rules.now) before.now entry)) }
    ensures err { IfErr result (IsTold (spec.item_fault (R.rules rules.now) before.now (view value.now))) }
{
    let spot = Spot {
        section: rules.section(),
        entry: before.len() as u32 + 1,
    };
    if before.len() >= MOST_ENTRIES {
        return Err(ConfigFault::OutOfRange(spot));
    }
    let table = value.as_table().ok_or(ConfigFault::WrongKind(spot))?;
    if !keys::has_known_keys(table, spot.section) {
        return Err(ConfigFault::UnknownKey(spot));
    }
    let entry = rules.read(alloc, table, spot)?;
    if !is_new(rules, before, &entry) {
        return Err(ConfigFault::Twice(spot));
    }
    Ok(entry)
}

/// The entries that the items say, one each.
#[tactic(auto, using(crate::proofs::NoWant::untold))]
fn entries<R: SectionRules>(
    alloc: Global,
    rules: &R,
    values: &[Value],
) -> Result<Items<R::Entry>, ConfigFault>
    ensures ok { IfOk result (AreEntries (R.rules rules.now) (map view values.now)) }
    ensures right { IfOk result (λ _. spec.items_fault (R.rules rules.now) [] (map view values.now) ≡ None) }
    ensures err { IfErr result (IsTold (spec.items_fault (R.rules rules.now) [] (map view values.now))) }
{
    let mut all = Vec::new(alloc);
    for value in values {
        let entry = item(alloc, rules, all.as_slice(), value)?;
        all.push(entry)?;
    }
    Ok(Items::from_vec(all))
}

/// The entries that the value at a section's key says.
fn said<R: SectionRules>(
    alloc: Global,
    rules: &R,
    value: &Value,
) -> Result<Items<R::Entry>, ConfigFault>
    ensures ok { IfOk result (λ all. SaysEntries (R.rules rules.now) (Some (view value.now)) (Some all)) }
    ensures right { IfOk result (λ _. spec.value_fault (R.rules rules.now) (Some (view value.now)) ≡ None) }
    ensures err { IfErr result (IsTold (spec.value_fault (R.rules rules.now) (Some (view value.now)))) }
{
    let Some(values) = value.as_array() else {
        let section = rules.section();
        return Err(ConfigFault::WrongKind(Spot { section, entry: 0 }));
    };
    entries(alloc, rules, values.as_slice())
}

/// The value at a section's key, None where the key is absent.
fn value_of<'a, R: SectionRules>(rules: &R, table: &'a Table) -> Option<&'a Value>
    ensures { option_map (λ value. view value.now) result ≡ spec.value_of (R.rules rules.now) (table_view table.now) }
{
    keys::value_at(table, rules.section().key())
}

/// The entries of a table's section, None where the section is absent.
pub fn section<R: SectionRules>(
    alloc: Global,
    rules: &R,
    table: &Table,
) -> Result<Option<Items<R::Entry>>, ConfigFault>
    ensures ok { IfOk result (IsSection (R.rules rules.now) (table_view table.now)) }
    ensures right { IfOk result (λ _. section_fault (R.rules rules.now) (table_view table.now) ≡ None) }
    ensures err { IfErr result (IsTold (section_fault (R.rules rules.now) (table_view table.now))) }
{
    match value_of(rules, table) {
        Some(value) => Ok(Some(said(alloc, rules, value)?)),
        None => Ok(None),
    }
}

/// The entries of a table's section, none where the section is absent.
pub fn section_or_empty<R: SectionRules>(
    alloc: Global,
    rules: &R,
    table: &Table,
) -> Result<Items<R::Entry>, ConfigFault>
    ensures ok { IfOk result (IsSectionOrEmpty (R.rules rules.now) (table_view table.now)) }
    ensures right { IfOk result (λ _. section_fault (R.rules rules.now) (table_view table.now) ≡ None) }
    ensures err { IfErr result (IsTold (section_fault (R.rules rules.now) (table_view table.now))) }
{
    match section(alloc, rules, table)? {
        Some(all) => Ok(all),
        None => Ok(Items::new(alloc)),
    }
}
